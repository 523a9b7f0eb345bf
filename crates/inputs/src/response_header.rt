// The lines of a response before its sections (paper 01, Response lines): kind, identifier, label,
// n, and the target of a search.
ghost use Rattle.std.specs.Prelude.{◌≡◌, ◌+◌, ◌^◌, ◌<◌};
ghost use Rattle.lines.specs.Line.{read_line};
ghost use Rattle.rules.specs.Response.{search};
ghost use Rattle.rules.specs.ResponseText.{head_form, read_response};
ghost use Rattle.inputs.specs.TextLine.{read_from};
ghost use Rattle.inputs.specs.ResponseLines.{kind_of};
ghost use Rattle.inputs.specs.ResponseHeader.{read_kt, read_finding, opened_of, size_of, shifted};
ghost use Rattle.inputs.specs.ResponseHeader.{finding_of, headed_of, OpenedDecodes, FoundDecodes};
ghost use Rattle.inputs.specs.ResponseHeader.{HeaderStands};

use crate::response_lines::{Finding, Kind, KtLine, Target, head_line, kt_line, target_line};
use crate::text_line::{line_from, read_from};
use lines::part::Part;

// What stands before the sections, and the offset where these begin.
#[derive(Clone, Copy)]
pub(crate) struct Header {
    pub(crate) identifier: Part,
    pub(crate) label: Part,
    pub(crate) tree_size: u64,
    pub(crate) finding: Finding,
    pub(crate) next: usize,
}

// The lines before the sections, each where the one before it ends.
pub(crate) fn read_header(text: &[u8]) -> Option<Header>
    ensures header { headed_of text.now result ≡ read_response text.now }
    ensures stands { HeaderStands text.now result }
{
    let (first, next) = kt_from(text)?;
    let (tree_size, next) = head_from(text, next)?;
    let (finding, next) = finding_from(text, first.kind, next)?;
    Some(Header {
        identifier: first.identifier,
        label: first.label,
        tree_size,
        finding,
        next,
    })
}

// The first line, and the offset after it.
fn kt_from(text: &[u8]) -> Option<(KtLine, usize)>
    ensures read { opened_of text.now result ≡ read_from read_kt text.now 0 }
    ensures decodes { OpenedDecodes text.now result }
{
    read_from(text, 0, kt_line)
}

// n of the `head` line at an offset, and the offset after it.
fn head_from(text: &[u8], at: usize) -> Option<(u64, usize)>
    ensures { size_of result ≡ read_from (read_line head_form) text.now at }
{
    read_from(text, at, head_line)
}

// What stands at an offset after the `head` line, and the offset after it: for a search its
// `target` line, for monitoring no line.
fn finding_from(text: &[u8], kind: Kind, at: usize) -> Option<(Finding, usize)>
    ensures read { finding_of text.now result ≡ read_finding (kind_of kind) text.now at }
    ensures decodes { FoundDecodes text.now result }
{
    match kind {
        Kind::Search => target_from(text, at),
        Kind::Monitor => Some((Finding::Monitor, at)),
    }
}

// What a search found, by the `target` line at an offset, its fields as parts of the text; the
// offset after it.
fn target_from(text: &[u8], at: usize) -> Option<(Finding, usize)>
    ensures read { finding_of text.now result ≡ read_finding search text.now at }
    ensures decodes { FoundDecodes text.now result }
{
    let (line, next) = line_from(text, at)?;
    let found = target_line(line)?;
    let target = Target {
        version: found.version,
        opening: shift(found.opening, at),
        value: shift(found.value, at),
    };
    Some((Finding::Search(target), next))
}

// A part of a line that begins at an offset of a text, as a part of the text.
fn shift(part: Part, at: usize) -> Part
    requires { (at + part.start < 2 ^ 64) × (at + part.stop < 2 ^ 64) }
    ensures { result ≡ shifted at part }
{
    Part {
        start: at + part.start,
        stop: at + part.stop,
    }
}
