// A response, read once (paper 01, Response lines): where its fields and sections stand, and how
// many lines the sections have.
ghost use Rattle.std.specs.Prelude.{◌≡◌, ◌≤◌, ltb, length, drop};
ghost use Rattle.rules.specs.ResponseText.{read_response};
ghost use Rattle.inputs.specs.TextLine.{read_from};
ghost use Rattle.inputs.specs.ResponseHeader.{parts_after, HeaderDecodes};
ghost use Rattle.inputs.specs.Response.{parts_of, Offsets, loose_in};
ghost use Rattle.inputs.specs.ResponseSections.{read_role, role_of, role_from_of, SectionOf};

use crate::response_header::{Header, read_header};
use crate::response_lines::{Finding, is_end, is_entry, is_lookup, is_node, is_step};
use crate::text_line::read_from;
use lines::part::Part;

// A section: the part of the text that its lines fill, and how many steps, entries or nodes it has.
#[derive(Clone, Copy)]
pub struct Section {
    pub part: Part,
    pub count: usize,
}

// The fields that encode identifier and label; n; what was found; the lines of steps, of entries
// with their lookups, and of nodes.
#[derive(Clone, Copy)]
pub struct Response {
    pub identifier: Part,
    pub label: Part,
    pub tree_size: u64,
    pub finding: Finding,
    pub steps: Section,
    pub entries: Section,
    pub nodes: Section,
}

// The response that a text is; none, where bytes break the line rules or a field's length: refusal 5.
pub fn read_response(text: &[u8]) -> Option<Response>
    ensures parts { parts_of text.now result ≡ read_response text.now }
    ensures offsets { Offsets text.now result }
{
    read_body(text, read_header(text)?)
}

// What the lines of a section are. The `end` line is a section of its own.
// A choice and no closure: SectionOf says by the sort what the lines read as.
#[derive(Clone, Copy)]
enum Sort {
    Steps,
    Entries,
    Nodes,
    Ends,
}

// A line begins an element of a section, or continues one, as a lookup does an entry.
#[derive(Clone, Copy, PartialEq, Eq)]
enum Role {
    Begins,
    Continues,
}

// The response that a header and the sections after it make, if nothing more stands in the text.
fn read_body(text: &[u8], h: Header) -> Option<Response>
    requires within { h.next ≤ length text.now }
    requires decodes { HeaderDecodes text.now h }
    ensures parts { parts_of text.now result ≡ parts_after text.now h }
    ensures offsets { Offsets text.now result }
{
    let steps = section_from(text, Sort::Steps, h.next);
    let entries = section_from(text, Sort::Entries, steps.part.stop);
    let nodes = section_from(text, Sort::Nodes, entries.part.stop);
    let end = section_from(text, Sort::Ends, nodes.part.stop);
    if is_loose(text, steps.part.stop) {
        return None;
    }
    if end.count != 1 {
        return None;
    }
    if end.part.stop < text.len() {
        return None;
    }
    Some(Response {
        identifier: h.identifier,
        label: h.label,
        tree_size: h.tree_size,
        finding: h.finding,
        steps,
        entries,
        nodes,
    })
}

// Whether lookups that follow no entry stand at an offset.
fn is_loose(text: &[u8], at: usize) -> bool
    ensures { result ≡ ltb 0 (length (loose_in (drop at text.now))) }
{
    role_from(text, Sort::Entries, at).is_some_and(|(role, _)| role == Role::Continues)
}

// The section that begins at an offset, with all lines that belong to it.
fn section_from(text: &[u8], sort: Sort, from: usize) -> Section
    requires { from ≤ length text.now }
    ensures { SectionOf sort text.now from result }
{
    let mut at = from;
    let mut count: usize = 0;
    while let Some((role, next)) = role_from(text, sort, at) {
        if role == Role::Begins {
            count += 1;
        }
        at = next;
    }
    Section {
        part: Part {
            start: from,
            stop: at,
        },
        count,
    }
}

// What the line at an offset is in a section, if it belongs there, and the offset after it.
fn role_from(text: &[u8], sort: Sort, at: usize) -> Option<(Role, usize)>
    ensures { role_from_of result ≡ read_from (read_role sort) text.now at }
{
    read_from(text, at, |l| role_in(sort, l))
}

// What a line is in a section, if it belongs there.
fn role_in(sort: Sort, l: &[u8]) -> Option<Role>
    ensures { role_of result ≡ read_role sort l.now }
{
    match sort {
        Sort::Steps => is_step(l).then_some(Role::Begins),
        Sort::Entries => {
            if is_entry(l) {
                return Some(Role::Begins);
            }
            is_lookup(l).then_some(Role::Continues)
        }
        Sort::Nodes => is_node(l).then_some(Role::Begins),
        Sort::Ends => is_end(l).then_some(Role::Begins),
    }
}
