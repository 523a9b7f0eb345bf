// A request to the program (paper 01, Sixteen numbers): one line with the kind of the call, the
// identifier that was sent and the clock.
ghost use Rattle.std.specs.Prelude.{◌≡◌, ◌≤◌, length, IfSome};
ghost use Rattle.rules.specs.Limits.{request_limit};
ghost use Rattle.rules.specs.Program.{read_request};
ghost use Rattle.verifier.specs.Request.{identifier_room, request_in, IsRequest, IsFields};

use inputs::response_lines::{Kind, KtLine};
use lines::cursor::Cursor;
use lines::layout::Word;
use lines::writing::put_decoded;

// A request, for a kind of call or for none; its identifier is the first bytes of its room.
#[derive(Clone, Copy)]
pub(crate) struct Request {
    pub(crate) asked: Option<Kind>,
    // An array with its length beside: there is no heap.
    pub(crate) identifier: [u8; Request::IDENTIFIER],
    pub(crate) length: usize,
    pub(crate) clock: u64,
}

impl Request {
    // The most bytes of a request's text.
    pub(crate) const TEXT: usize = 128;

    // More bytes than such a text can encode.
    pub(crate) const IDENTIFIER: usize = Request::TEXT / 2;
}

// The request that a text says; a broken text asks for nothing.
pub(crate) fn read_request(text: &[u8]) -> Request
    requires { length text.now ≤ request_limit }
    ensures request { request_in result ≡ read_request text.now }
    ensures within { result.length ≤ identifier_room }
{
    match whole_request(text) {
        Some(request) => request,
        None => Request {
            asked: None,
            identifier: [0u8; Request::IDENTIFIER],
            length: KtLine::IDENTIFIER,
            clock: 0,
        },
    }
}

// The request of a text that is not broken: one line, which begins with a kind's word.
fn whole_request(text: &[u8]) -> Option<Request>
    requires { length text.now ≤ request_limit }
    ensures request { IsRequest text.now result }
    ensures within { IfSome result (λ r. r.length ≤ identifier_room) }
{
    let start = Cursor { at: 0 };
    let (stop, next) = start.line(text)?;
    if next.at < text.len() {
        return None;
    }
    let line = &text[0..stop];
    if let Some(next) = start.word(line, &Word::SEARCH) {
        return with_fields(Kind::Search, line, next.at);
    }
    let next = start.word(line, &Word::MONITOR)?;
    with_fields(Kind::Monitor, line, next.at)
}

// The request of a kind whose other fields stand in a line from an offset on.
fn with_fields(kind: Kind, line: &[u8], at: usize) -> Option<Request>
    requires { length line.now ≤ request_limit }
    ensures request { IsFields kind line.now at result }
    ensures within { IfSome result (λ r. r.length ≤ identifier_room) }
{
    let cursor = Cursor { at };
    let (length, at_clock) = cursor.bytes(line)?;
    let (clock, next) = at_clock.number(line, u64::MAX)?;
    if next.at <= line.len() {
        return None;
    }
    let mut identifier = [0u8; Request::IDENTIFIER];
    put_decoded(&mut identifier, 0, cursor.field(line));
    Some(Request {
        asked: Some(kind),
        identifier,
        length,
        clock,
    })
}
