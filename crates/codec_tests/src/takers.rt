// A taker that refuses one of the tokens that a reader hands it.
ghost use Rattle.std.specs.Prelude.{◌≡◌, ◌-◌, Some, ⊤, OnOk};
ghost use Rattle.codec_tests.specs.Counting.{refusal_of};
ghost use Rattle.wbxml_tokens.specs.Taking.{TakesToken};

use std::alloc::Global;
use std::marker::Model;
use std::test::Fail;
use wbxml_tables::Element;
use wbxml_tokens::{FeedError, Reader, Reason, Refusal, Taker, Writer};

// What it refuses is the token behind so many that it takes. Calls are counted, and the last place is kept.
#[derive(Drop)]
struct Counter {
    takes: u64,
    calls: u64,
    place: u64,
}

impl Model for Counter {
    ghost use Rattle.std.specs.Prelude.{ℕ};

    ghost Value = { ℕ };

    ghost view = { λ c. c.takes };
}

impl Counter {
    fn take(&mut self) -> Result<(), Reason>
        ensures ok { OnOk result (self.new ≡ self.old - 1) }
        ensures taken { TakesToken Some (λ old new. ⊤) result self.old self.new (refusal_of self.old) }
    {
        self.calls = self.calls.saturating_add(1);
        if self.takes == 0 {
            return Err(Reason::Leftout);
        }
        self.takes -= 1;
        Ok(())
    }
}

impl Writer for Counter {
    type Error = Reason;

    ghost use Rattle.std.specs.Prelude.{◌-◌, Some, ⊤};
    ghost use Rattle.codec_tests.specs.Counting.{refusal_of};

    ghost after = { λ takes token. takes - 1 };

    ghost refusal = { λ takes token. refusal_of takes };

    ghost told = { Some };

    ghost left = { λ old new. ⊤ };

    fn tag(&mut self, _element: Element, _content: bool) -> Result<(), Reason> {
        self.take()
    }

    fn end(&mut self) -> Result<(), Reason> {
        self.take()
    }

    fn text(&mut self, _text: &[u8]) -> Result<(), Reason> {
        self.take()
    }

    fn opaque(&mut self, _bytes: &[u8]) -> Result<(), Reason> {
        self.take()
    }
}

impl Taker for Counter {
    ghost placed = { λ takes at. takes };

    fn place(&mut self, at: u64) {
        self.place = at;
    }

    fn reason(error: Reason) -> Option<Reason> {
        Some(error)
    }
}

// Texts inline and of the table, an opaque, ENDs and tags, one behind a page switch.
const DOCUMENT: &[u8] = b"\x03\xa4\x01\x6a\x02A\x00\
    \x6d\x6c\x71\x031.2\x00\x01\xc3\x02\x00\x01\x83\x00\x00\x01\x53\x03x\x00\x01\x00\x00\x2d\x01\x01";

// The places of its tokens.
const PLACES: [u64; 13] = [7, 8, 9, 10, 15, 16, 20, 24, 25, 28, 31, 32, 33];

// What a reader answers in pieces whose taker takes so many tokens, how many calls the taker had, and the last place.
fn fed(alloc: Global, takes: u64, piece: usize) -> (Result<(), FeedError>, u64, u64) {
    let mut reader = Reader::new(alloc);
    let mut counter = Counter {
        takes,
        calls: 0,
        place: 0,
    };
    let mut answer = Ok(());
    for part in DOCUMENT.chunks(piece.max(1)) {
        if answer == Ok(()) {
            answer = reader.feed(part, &mut counter);
        }
    }
    (answer, counter.calls, counter.place)
}

const PIECES: [usize; 4] = [1, 3, 8, 100];

// It is handed nothing behind its refusal, which the reader answers at the token's place.
#[test]
fn a_refusal_ends_reading_at_its_token(rt: HostRuntime) -> Result<(), Fail> {
    for piece in &PIECES {
        let mut takes = 0u64;
        for place in &PLACES {
            let refusal = Refusal {
                at: *place,
                reason: Reason::Leftout,
            };
            let (answer, calls, last) = fed(rt.alloc(), takes, *piece);
            takes = takes.saturating_add(1);
            assert!(rt; answer == Err(FeedError::Refused(refusal)));
            assert_eq!(rt; (calls, last), (takes, *place));
        }
        let (answer, calls, last) = fed(rt.alloc(), takes, *piece);
        assert!(rt; answer == Ok(()));
        assert_eq!(rt; (calls, last), (13, 33));
    }
    Ok(())
}
