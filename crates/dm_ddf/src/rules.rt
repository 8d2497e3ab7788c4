// What a description is made of.
use dm_base::{Bytes, List};
use dm_uri::Name;

/// The commands that an access list may name.
#[derive(Clone, Copy, Debug, PartialEq, Eq)]
pub struct Access {
    pub add: bool,
    pub delete: bool,
    pub exec: bool,
    pub get: bool,
    pub replace: bool,
}

/// How many nodes may stand for a rule below one parent. The numbers are 1 to 65,535.
#[derive(Clone, Copy, Debug, PartialEq, Eq)]
pub enum Occurs {
    One,
    ZeroOrOne,
    ZeroOrMore,
    OneOrMore,
    /// None to so many.
    ZeroOrN(u32),
    /// One to so many.
    OneOrN(u32),
}

/// What a rule's line says.
#[derive(Drop)]
pub struct RuleLine {
    /// How many rules stand above it, beside the top: one less than its depth, 0 to 15.
    pub level: u32,
    pub name: Name,
    pub permanent: bool,
    pub access: Access,
    pub formats: List<Bytes>,
    pub occurs: Occurs,
}

/// A rule: what a node that stands for it is like, and how many may stand for it below one parent. The name `*` is for
/// all nodes whose name no rule beside it has.
#[derive(Drop)]
pub struct Rule {
    pub name: Name,
    pub permanent: bool,
    pub access: Access,
    /// `node` alone, or Formats of leaves.
    pub formats: List<Bytes>,
    pub occurs: Occurs,
    /// The number of the rule above it.
    pub parent: u32,
    /// The numbers of the rules right below it, in order.
    pub children: List<u32>,
    /// How many bytes the path of names from the root has in print, each `*` counted as five.
    pub written: u32,
}

/// A description: its rules, each under its number. They are numbered from 1 by their lines, at most 4,096; number 0 is
/// the top, for which the root stands.
#[derive(Drop)]
pub struct Ddf {
    pub rules: List<Rule>,
}
