// Texts that are no access lists, and the byte from which on they aren't.

pub struct FaultRow {
    pub text: &'static [u8],
    pub at: usize,
}

pub const FAULTS: [FaultRow; 31] = [
    FaultRow {
        text: b"Add=a&Add=b",
        at: 6,
    },
    FaultRow {
        text: b"Get=*&Add=a&Get=",
        at: 12,
    },
    FaultRow {
        text: b"Get",
        at: 0,
    },
    FaultRow { text: b"", at: 0 },
    FaultRow { text: b"&", at: 0 },
    FaultRow {
        text: b"Get=*&",
        at: 6,
    },
    FaultRow {
        text: b"&Get=*",
        at: 0,
    },
    FaultRow {
        text: b"Get=*&&Add=*",
        at: 6,
    },
    FaultRow {
        text: b"Add=a&Get=b+",
        at: 6,
    },
    FaultRow {
        text: b"Add=+a",
        at: 0,
    },
    FaultRow {
        text: b"Add=a++b",
        at: 0,
    },
    FaultRow {
        text: b"Add=a&Get=b c&Add=a",
        at: 6,
    },
    FaultRow {
        text: b"Add=*+a",
        at: 0,
    },
    FaultRow {
        text: b"Add=a+*",
        at: 0,
    },
    FaultRow {
        text: b"Add=**",
        at: 0,
    },
    FaultRow {
        text: b"Add=a*",
        at: 0,
    },
    FaultRow {
        text: b"Add=a=b",
        at: 0,
    },
    FaultRow {
        text: b"add=a",
        at: 0,
    },
    FaultRow {
        text: b"ADD=a",
        at: 0,
    },
    FaultRow {
        text: b"Copy=a",
        at: 0,
    },
    FaultRow {
        text: b"Add =a",
        at: 0,
    },
    FaultRow {
        text: b"Add",
        at: 0,
    },
    FaultRow { text: b"=a", at: 0 },
    FaultRow {
        text: b"Adda",
        at: 0,
    },
    FaultRow {
        text: b"Get=*&get=*",
        at: 6,
    },
    FaultRow {
        text: b"Add=a\x7f",
        at: 0,
    },
    FaultRow {
        text: b"Add=\x20",
        at: 0,
    },
    FaultRow {
        text: b"Add=\xc3\xa4",
        at: 0,
    },
    FaultRow {
        text: b"Add=a\n",
        at: 0,
    },
    FaultRow {
        text: b"Add=aaaaaaaaaaaaaaaaaaaaaaaaaaaaaaaaaaaaaaaaaaaaaaaaaaaaaaaaaaaaaaaaa",
        at: 0,
    },
    FaultRow {
        text: b"Add=b+aaaaaaaaaaaaaaaaaaaaaaaaaaaaaaaaaaaaaaaaaaaaaaaaaaaaaaaaaaaaaaaaa",
        at: 0,
    },
];
