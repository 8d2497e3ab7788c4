// Lists of words, and the form that each has.
use dm_machine::Initiator;
use dm_words::{DeviceWords, Form, ServeWords, read_form};
use std::alloc::Global;
use std::test::Fail;

/// What a form is compared by.
#[derive(Clone, Copy, PartialEq, Eq)]
enum Asked {
    Replay,
    Device(&'static str, &'static str, Initiator, u32, &'static str),
    Serve(&'static str, u32),
    Pair,
    Show,
    Check,
    Bench {
        seed: u64,
        nodes: u32,
        messages: u32,
    },
    Conform,
    Make,
}

// Of 255 bytes, and of 256.
const LONG: &str = "abcdefghijklmnopqrstuvwxyzabcdefghijklmnopqrstuvwxyzabcdefghijklmnopqrstuvwxyz\
                    abcdefghijklmnopqrstuvwxyzabcdefghijklmnopqrstuvwxyzabcdefghijklmnopqrstuvwxyz\
                    abcdefghijklmnopqrstuvwxyzabcdefghijklmnopqrstuvwxyzabcdefghijklmnopqrstuvwxyzabcdefghijklmnopqrstu";

const TOO_LONG: &str =
    "abcdefghijklmnopqrstuvwxyzabcdefghijklmnopqrstuvwxyzabcdefghijklmnopqrstuvwxyz\
                    abcdefghijklmnopqrstuvwxyzabcdefghijklmnopqrstuvwxyzabcdefghijklmnopqrstuvwxyz\
                    abcdefghijklmnopqrstuvwxyzabcdefghijklmnopqrstuvwxyzabcdefghijklmnopqrstuvwxyzabcdefghijklmnopqrstuv";

#[rattlefmt::skip]
const ROWS: [(&[&str], Option<Asked>); 83] = [
    (&["replay"], Some(Asked::Replay)),
    (&["pair"], Some(Asked::Pair)),
    (&["show"], Some(Asked::Show)),
    (&["check"], Some(Asked::Check)),
    (&[], None),
    (&[""], None),
    (&["-"], None),
    (&["--"], None),
    (&["-h"], None),
    (&["--help"], None),
    (&["-V"], None),
    (&["--version"], None),
    (&["-replay"], None),
    (&["help"], None),
    (&["version"], None),
    (&["dmtool"], None),
    (&["Replay"], None),
    (&["repla"], None),
    (&["replays"], None),
    (&["replay "], None),
    (&["replay", "x"], None),
    (&["pair", "x"], None),
    (&["replay", ""], None),
    (&["replay", "-v"], None),
    (&["check", "check"], None),
    (&["--", "show"], None),
    (&["help", "show"], None),
    (
        &["bench", "7", "200", "100"],
        Some(Asked::Bench {
            seed: 7,
            nodes: 200,
            messages: 100,
        }),
    ),
    (
        &["bench", "0", "1", "0"],
        Some(Asked::Bench {
            seed: 0,
            nodes: 1,
            messages: 0,
        }),
    ),
    (
        &["bench", "18446744073709551615", "60000", "10000"],
        Some(Asked::Bench {
            seed: u64::MAX,
            nodes: 60_000,
            messages: 10_000,
        }),
    ),
    (&["bench"], None),
    (&["bench", "7", "200"], None),
    (&["bench", "7", "200", "100", "1"], None),
    (&["bench", "18446744073709551616", "1", "0"], None),
    (&["bench", "7", "0", "1"], None),
    (&["bench", "7", "60001", "1"], None),
    (&["bench", "7", "10", "10001"], None),
    (&["bench", "07", "10", "1"], None),
    (&["bench", "7", "010", "1"], None),
    (&["bench", "7", "10", "00"], None),
    (&["bench", "+7", "10", "1"], None),
    (&["bench", "-7", "10", "1"], None),
    (&["bench", "7", "10", "x"], None),
    (&["bench", "7", "10", ""], None),
    (&["bench", "7", "10", " 1"], None),
    (&["show", "7", "10", "1"], None),
    (&["device", "h:80", "s1", "client", "1", "/dm"], Some(Asked::Device("h:80", "s1", Initiator::ByClient, 1, "/dm"))),
    (
        &["device", "h", "s", "server", "4294967294", "/"],
        Some(Asked::Device("h", "s", Initiator::ByServer, 4_294_967_294, "/")),
    ),
    (&["device", LONG, "~!", "server", "7", "/a?b=c"], Some(Asked::Device(LONG, "~!", Initiator::ByServer, 7, "/a?b=c"))),
    (&["device"], None),
    (&["device", "h", "s", "client", "1"], None),
    (&["device", "h", "s", "client", "1", "/", ""], None),
    (&["device", "h", "s", "both", "1", "/"], None),
    (&["device", "h", "s", "Client", "1", "/"], None),
    (&["device", "h", "s", "", "1", "/"], None),
    (&["device", "h", "s", "client", "0", "/"], None),
    (&["device", "h", "s", "client", "4294967295", "/"], None),
    (&["device", "h", "s", "client", "01", "/"], None),
    (&["device", "h", "s", "client", "1", "dm"], None),
    (&["device", "h", "s", "client", "1", ""], None),
    (&["device", "h", "s", "client", "1", "/a b"], None),
    (&["device", "h", "s", "client", "1", "/\u{7f}"], None),
    (&["device", "", "s", "client", "1", "/"], None),
    (&["device", "-h", "s", "client", "1", "/"], None),
    (&["device", "h h", "s", "client", "1", "/"], None),
    (&["device", "h\u{e9}", "s", "client", "1", "/"], None),
    (&["device", "h", "", "client", "1", "/"], None),
    (&["device", "h", "-", "client", "1", "/"], None),
    (&["device", "h", "s\n", "client", "1", "/"], None),
    (&["serve", "127.0.0.1:80", "1"], Some(Asked::Serve("127.0.0.1:80", 1))),
    (&["serve", "h", "1000000"], Some(Asked::Serve("h", 1_000_000))),
    (&["serve", TOO_LONG, "1"], None),
    (&["serve"], None),
    (&["serve", "h"], None),
    (&["serve", "h", "1", "1"], None),
    (&["serve", "h", "0"], None),
    (&["serve", "h", "1000001"], None),
    (&["serve", "h", "-1"], None),
    (&["serve", "-h", "1"], None),
    (&["conform"], Some(Asked::Conform)),
    (&["make"], Some(Asked::Make)),
    (&["conform", "x"], None),
    (&["make", ""], None),
];

fn device_of(row: &Asked, words: &DeviceWords) -> bool {
    let Asked::Device(address, server, kind, session, path) = row else {
        return false;
    };
    words.address.as_slice() == address.as_bytes()
        && words.server.as_slice() == server.as_bytes()
        && words.kind == *kind
        && words.session == *session
        && words.path.as_slice() == path.as_bytes()
}

fn serve_of(row: &Asked, words: &ServeWords) -> bool {
    let Asked::Serve(address, count) = row else {
        return false;
    };
    words.address.as_slice() == address.as_bytes() && words.count == *count
}

fn is_asked(row: &Asked, form: &Form) -> bool {
    match form {
        Form::Replay => *row == Asked::Replay,
        Form::Device(words) => device_of(row, words),
        Form::Serve(words) => serve_of(row, words),
        Form::Pair => *row == Asked::Pair,
        Form::Show => *row == Asked::Show,
        Form::Check => *row == Asked::Check,
        Form::Bench {
            seed,
            nodes,
            messages,
        } => {
            let asked = Asked::Bench {
                seed: *seed,
                nodes: *nodes,
                messages: *messages,
            };
            *row == asked
        }
        Form::Conform => *row == Asked::Conform,
        Form::Make => *row == Asked::Make,
    }
}

fn form_of(alloc: Global, row: &[&str]) -> Option<Option<Form>> {
    let mut words = Vec::new(alloc);
    for word in row {
        words.push(String::from_str(alloc, word).ok()?).ok()?;
    }
    read_form(alloc, words.as_slice()).ok()
}

fn has_form(alloc: Global, words: &[&str], row: &Option<Asked>) -> bool {
    match (form_of(alloc, words), row) {
        (Some(Some(form)), Some(row)) => is_asked(row, &form),
        (Some(None), None) => true,
        _ => false,
    }
}

// The number of the first row that has another form.
fn wrong_row(alloc: Global) -> Option<usize> {
    for (number, (words, row)) in ROWS.iter().enumerate() {
        if !has_form(alloc, words, row) {
            return Some(number);
        }
    }
    None
}

#[test]
fn words_have_their_forms(rt: HostRuntime) -> Result<(), Fail> {
    assert_eq!(rt; wrong_row(rt.alloc()), None);
    Ok(())
}
