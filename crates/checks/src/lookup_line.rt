// One lookup of a response (paper 01, Sixteen numbers: 12): whether it reaches the prefix root of its
// entry.
ghost use Rattle.std.specs.Prelude.{◌≡◌};
ghost use Rattle.tree.specs.Lookups.{terminal_of};
ghost use Rattle.rules.specs.Response.{Lookup, is_included};
ghost use Rattle.checks.specs.Sections.{OfLookup};
ghost use Rattle.checks.specs.Lookups.{leads_to, leaf_reaches, reaches, Passes};

use crate::sought::Sought;
use inputs::response_lines::Kind;
use inputs::vrf_outputs::find_output;
use lines::cursor::Cursor;
use lines::layout::Layout;
use tree::log_text::value_at;
use tree::prefix_tree::{Terminal, lookup_root, terminal_fits};

// Whether a lookup line, of a version that is included or not, reaches a prefix root, from what it
// is tried with. In a search there is no commitment with which one that is included above the
// version sought could be tried.
pub(crate) fn lookup_passes(
    sought: Sought,
    line: &[u8],
    version: u32,
    included: bool,
    root: [u8; 32],
) -> bool
    requires version { OfLookup line.now (λ (l : Lookup). l.version) version }
    requires included { OfLookup line.now (λ (l : Lookup). is_included l.result) included }
    ensures { Passes sought.entry line.now root result }
{
    let Some(found) = find_output(sought.outputs, version) else {
        return false;
    };
    let output = found.output;
    let index = found.index;
    let committed = sought.commitment;
    if included {
        match sought.kind {
            Kind::Search => {
                if sought.version < version {
                    return true;
                }
                if version == sought.version {
                    return lookup_reaches(line, output, committed, root);
                }
            }
            Kind::Monitor => {}
        }
        let commitment = value_at(sought.steps, sought.offsets[index] as usize);
        return lookup_reaches(line, output, commitment, root);
    }
    lookup_reaches(line, output, committed, root)
}

// Whether a lookup line reaches a prefix root, from an output and a commitment of its version.
fn lookup_reaches(line: &[u8], output: [u8; 32], commitment: [u8; 32], root: [u8; 32]) -> bool
    ensures { OfLookup line.now (reaches output commitment root) result }
{
    let start = Cursor { at: Layout::LOOKUP };
    let Some((_, next)) = start.number(line, u32::MAX as u64) else {
        return false;
    };
    let at = next.at;
    if line.len() < at {
        return false;
    }
    let rest = &line[at..];
    if line[0] == Layout::IN_LETTER {
        return leads_to(output, Terminal::SearchedLeaf { commitment }, rest, root);
    }
    if line[1] == Layout::NO_LETTER {
        return leads_to(output, Terminal::Empty, rest, root);
    }
    leaf_reaches(rest, output, root)
}

// The same of what follows the version of an `nl` line: the other leaf's output and commitment, and
// the siblings.
fn leaf_reaches(rest: &[u8], output: [u8; 32], root: [u8; 32]) -> bool
    ensures { result ≡ leaf_reaches output root rest.now }
{
    if rest.len() < 2 * Layout::DIGITS + 2 {
        return false;
    }
    let leaf = Terminal::OtherLeaf {
        output: value_at(rest, 0),
        commitment: value_at(rest, Layout::DIGITS + 1),
    };
    leads_to(output, leaf, &rest[2 * Layout::DIGITS + 2..], root)
}

// Whether what stands at a lookup's place fits its siblings, and leads to the root.
fn leads_to(output: [u8; 32], terminal: Terminal, siblings: &[u8], root: [u8; 32]) -> bool
    ensures { result ≡ leads_to output (terminal_of terminal) root siblings.now }
{
    if !terminal_fits(output, terminal, siblings.len() / Layout::DIGITS) {
        return false;
    }
    lookup_root(output, terminal, siblings) == root
}
