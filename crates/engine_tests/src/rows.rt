// Rows of messages, and what is told of them.

/// The start section of the device in which each row begins.
pub(crate) const DEVICE: &[u8] = b"dm-trace 1
device d1 Acme Box 1.2 en
limits 65536 4194304
account s1 - - - - -
leaf ./A chr text/plain 78
interior ./T
leaf ./T/a chr text/plain 74
fumo ./FUMO
acl . Add=*&Delete=*&Exec=*&Get=*&Replace=*
begin";

/// What stands before a message's command, and behind it: a header, and Final.
pub(crate) const HEAD: &[u8] =
    b"\x03\xa4\x01j\x00mlq\x031.2\x00\x01r\x03DM/1.2\x00\x01e\x031\x00\x01[\x031\x00\x01nW\x03d1\x00\
      \x01\x01gW\x03s1\x00\x01\x01\x01k";

pub(crate) const TAIL: &[u8] = b"\x12\x01\x01";

/// The commands of messages, one each, in WBXML, or none; and the codes of the Statuses and Alerts that are told of
/// them, with 0 for Results.
pub(crate) type Row = (&'static [&'static [u8]], &'static [u8]);

/// A package is written, and an update is started.
pub(crate) const UPDATE: Row = (
    &[
        b"`K\x031\x00\x01TnW\x03./FUMO/Update/PkgData\x00\x01\x01O\x03aa\x00\x01\x01\x01",
        b"QK\x031\x00\x01|\x03c7\x00\x01TnW\x03./FUMO/Update\x00\x01\x01\x01\x01",
    ],
    b"200 202 ",
);

/// A Replace of a name, and a Sequence of a Replace, an Atomic that fails at its third step, and a Get; then three
/// groups over messages: one that closes in the third, one that fails there, and one that a quiet message breaks. Each
/// has a Replace of ./A or a Delete of ./T, and pieces of an object, which it adds.
pub(crate) const ROWS: [Row; 5] = [
    (
        &[
            b"`K\x031\x00\x01TnW\x03./T?prop=Name\x00\x01\x01O\x03U\x00\x01\x01\x01",
            b"dK\x031\x00\x01`K\x032\x00\x01TnW\x03./A\x00\x01\x01O\x03y\x00\x01\x01\x01HK\x033\x00\
              \x01`K\x034\x00\x01TnW\x03./A\x00\x01\x01O\x03z\x00\x01\x01\x01PK\x035\x00\x01TnW\x03./U\
              \x00\x01\x01\x01\x01SK\x036\x00\x01TnW\x03./none\x00\x01\x01\x01\x01\x01SK\x037\x00\x01T\
              nW\x03./A\x00\x01\x01\x01\x01\x01",
        ],
        b"200 200 200 507 216 216 404 200 0 ",
    ),
    (
        &[
            b"HK\x031\x00\x01`K\x032\x00\x01TnW\x03./A\x00\x01\x01O\x03y\x00\x01\x01\x01EK\x033\x00\
              \x01TnW\x03./L\x00\x01\x01Z\x00\x01R\x036\x00\x01\x01\x00\x00O\x03ab\x00\x014\x01\x01\
              \x01",
            b"HK\x031\x00\x01EK\x032\x00\x01TnW\x03./L\x00\x01\x01Z\x00\x01R\x036\x00\x01\x01\x00\x00O\
              \x03cd\x00\x014\x01\x01\x01",
            b"HK\x031\x00\x01EK\x032\x00\x01TnW\x03./L\x00\x01\x01O\x03ef\x00\x01\x01\x01SK\x033\x00\
              \x01TnW\x03./L\x00\x01\x01\x01\x01\x01",
        ],
        b"200 200 213 200 213 200 200 200 0 ",
    ),
    (
        &[
            b"HK\x031\x00\x01`K\x032\x00\x01TnW\x03./A\x00\x01\x01O\x03y\x00\x01\x01\x01EK\x033\x00\
              \x01TnW\x03./L\x00\x01\x01Z\x00\x01R\x036\x00\x01\x01\x00\x00O\x03ab\x00\x014\x01\x01\
              \x01",
            b"HK\x031\x00\x01EK\x032\x00\x01TnW\x03./L\x00\x01\x01Z\x00\x01R\x036\x00\x01\x01\x00\x00O\
              \x03cd\x00\x014\x01\x01\x01",
            b"HK\x031\x00\x01EK\x032\x00\x01TnW\x03./L\x00\x01\x01O\x03ef\x00\x01\x01\x01PK\x033\x00\
              \x01TnW\x03./none\x00\x01\x01\x01\x01\x01",
        ],
        b"507 216 216 507 216 507 216 404 ",
    ),
    (
        &[
            b"HK\x031\x00\x01PK\x032\x00\x01TnW\x03./T\x00\x01\x01\x01\x01EK\x033\x00\x01TnW\x03./L\
              \x00\x01\x01Z\x00\x01R\x036\x00\x01\x01\x00\x00O\x03ab\x00\x014\x01\x01\x01",
            b"",
        ],
        b"1225 507 216 216 ",
    ),
    UPDATE,
];
