// Responses: where their sections stand.
use inputs::refusal::Refusal;
use inputs::response::{Response, Section, read_response};
use inputs::response_lines::{Finding, Kind};
use output_lines::{number, numbers, text, word};

fn kind(rt: &impl Print, k: Kind) {
    match k {
        Kind::Search => word(rt, b" search"),
        Kind::Monitor => word(rt, b" monitor"),
    }
}

// Monitoring has version 0, and no opening and no value.
fn finding(rt: &impl Print, s: &[u8], f: Finding) {
    match f {
        Finding::Search(target) => {
            number(rt, u64::from(target.version));
            text(rt, target.opening.of(s));
            text(rt, target.value.of(s));
        }
        Finding::Monitor => {
            number(rt, 0);
            text(rt, b"");
            text(rt, b"");
        }
    }
}

fn section(rt: &impl Print, s: Section) {
    numbers(
        rt,
        &[s.part.start as u64, s.part.stop as u64, s.count as u64],
    );
}

fn fields(rt: &impl Print, s: &[u8], r: Response) {
    kind(rt, r.finding.kind());
    text(rt, r.identifier.of(s));
    text(rt, r.label.of(s));
    number(rt, r.tree_size);
    finding(rt, s, r.finding);
    section(rt, r.steps);
    section(rt, r.entries);
    section(rt, r.nodes);
}

pub(crate) fn response(rt: &impl Print, s: &[u8]) {
    match read_response(s) {
        Some(r) => fields(rt, s, r),
        None => number(rt, Refusal::Lines.number()),
    }
}
