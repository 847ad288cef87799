// The listing of a source, put into a lent output.
#![tactic(auto)]

ghost use Rattle.std.specs.Prelude.{◌≡◌, ◌≤◌, leb, length};
ghost use Rattle.print.specs.Text.{listing_limit, Puts};
ghost use Rattle.reader.specs.Reading.{eight, read_into, read_tables};
ghost use Rattle.listing.specs.Listing.{listing, list_answer, listed_in};
ghost use Rattle.listing.specs.Steps.{text_of};

use ends::{ParseError, ReadCounts};
use records::refusals::Cause;

// Writes what is listed for an answer and its tables, from the output's start on, as far as there is room; answers how long it is.
#[tactic(auto, using(crate::proofs::Texts::text_read, crate::proofs::Texts::text_refused, crate::proofs::Texts::puts_same))]
fn list_answer(
    source: &[u8],
    answer: Result<ReadCounts, ParseError>,
    names: &[u32],
    nodes: &[u32],
    errors: &[u32],
    out: &mut [u8],
) -> usize
    requires { length (text_of source.now answer names.now nodes.now errors.now) ≤ listing_limit }
    ensures { Puts (text_of source.now answer names.now nodes.now errors.now) out.old 0 out.new result }
{
    match answer {
        Ok(counts) => rows::list_tables(
            source,
            names,
            counts.names,
            nodes,
            counts.nodes,
            errors,
            counts.errors,
            out,
        ),
        Err(error) => rows::list_refusal(source, error.row(), out),
    }
}

// How long it is.
fn list_length(
    source: &[u8],
    answer: Result<ReadCounts, ParseError>,
    names: &[u32],
    nodes: &[u32],
    errors: &[u32],
) -> usize
    requires { length (text_of source.now answer names.now nodes.now errors.now) ≤ listing_limit }
    ensures { result ≡ length (text_of source.now answer names.now nodes.now errors.now) }
{
    let mut nothing = [0u8; 1];
    list_answer(source, answer, names, nodes, errors, &mut nothing)
}

// Whether so many bytes have room for it; as many as no listing passes always have.
fn has_room(
    source: &[u8],
    answer: Result<ReadCounts, ParseError>,
    names: &[u32],
    nodes: &[u32],
    errors: &[u32],
    room: usize,
) -> bool
    requires { length (text_of source.now answer names.now nodes.now errors.now) ≤ listing_limit }
    ensures { result ≡ leb (length (text_of source.now answer names.now nodes.now errors.now)) room }
{
    if print::LISTING <= room {
        return true;
    }
    list_length(source, answer, names, nodes, errors) <= room
}

// Writes it, if there is room for all of it.
fn list_read(
    source: &[u8],
    answer: Result<ReadCounts, ParseError>,
    names: &[u32],
    nodes: &[u32],
    errors: &[u32],
    out: &mut [u8],
) -> Option<usize>
    requires { length (text_of source.now answer names.now nodes.now errors.now) ≤ listing_limit }
    ensures answer { result ≡ list_answer (text_of source.now answer names.now nodes.now errors.now) (length out.old) }
    ensures output { out.new ≡ listed_in (text_of source.now answer names.now nodes.now errors.now) out.old }
{
    if has_room(source, answer, names, nodes, errors, out.len()) {
        return Some(list_answer(source, answer, names, nodes, errors, out));
    }
    None
}

// Reads a source into eight lent tables and writes its listing into a lent output, for any bytes, any jet list, any tables and any
// output; where there is no room for all of it, no byte is written.
pub fn list(
    source: &[u8],
    jets: &[u8],
    tokens: &mut [u32],
    lines: &mut [u32],
    exprs: &mut [u32],
    types: &mut [u32],
    names: &mut [u32],
    nodes: &mut [u32],
    errors: &mut [u32],
    work: &mut [u32],
    out: &mut [u8],
) -> Option<usize>
    ensures answer { result ≡ list_answer (listing source.now (read_into source.now jets.now (eight tokens.old lines.old exprs.old types.old names.old nodes.old errors.old work.old))) (length out.old) }
    ensures output { out.new ≡ listed_in (listing source.now (read_into source.now jets.now (eight tokens.old lines.old exprs.old types.old names.old nodes.old errors.old work.old))) out.old }
    ensures tables { eight tokens.new lines.new exprs.new types.new names.new nodes.new errors.new work.new ≡ read_tables (read_into source.now jets.now (eight tokens.old lines.old exprs.old types.old names.old nodes.old errors.old work.old)) (eight tokens.old lines.old exprs.old types.old names.old nodes.old errors.old work.old) }
{
    let answer = reader::read(
        source, jets, tokens, lines, exprs, types, names, nodes, errors, work,
    );
    list_read(source, answer, names, nodes, errors, out)
}
