// What the program prints, put into a lent output: the listing of a source, made with tables of its own, or that the jet list
// is refused.
#![tactic(auto)]

ghost use Rattle.std.specs.Prelude.{◌≡◌, ◌≤◌, length, take};
ghost use Rattle.reader.specs.Reading.{reading};
ghost use Rattle.listing.specs.Listing.{listing, list_answer, listed_in};
ghost use Rattle.sheets.specs.Sheet.{refused_jets, sheet, bytes_of};

use print::Output;
use records::limits::Limits;
use records::{
    ErrorRecord, ExprRecord, LineRecord, NameRecord, NodeRecord, TokenRecord, TypeRecord,
    WorkRecord,
};

// Bytes of a jet list.
pub const JETS: usize = 65536;

const RECORDS: usize = Limits::RECORDS as usize;

// Bytes of `refused jets` and LF.
const REFUSED: usize = 13;

// Lists a source, with tables of its own.
fn list_source(source: &[u8], jets: &[u8], out: &mut [u8]) -> Option<usize>
    ensures answer { result ≡ list_answer (listing source.now (reading source.now jets.now)) (length out.old) }
    ensures output { out.new ≡ listed_in (listing source.now (reading source.now jets.now)) out.old }
{
    let mut tokens = [0u32; RECORDS * TokenRecord::WORDS as usize];
    let mut lines = [0u32; RECORDS * LineRecord::WORDS as usize];
    let mut exprs = [0u32; RECORDS * ExprRecord::WORDS as usize];
    let mut types = [0u32; RECORDS * TypeRecord::WORDS as usize];
    let mut names = [0u32; RECORDS * NameRecord::WORDS as usize];
    let mut nodes = [0u32; RECORDS * NodeRecord::WORDS as usize];
    let mut errors = [0u32; RECORDS * ErrorRecord::WORDS as usize];
    let mut work = [0u32; RECORDS * WorkRecord::WORDS as usize];
    listing::list(
        source,
        jets,
        &mut tokens,
        &mut lines,
        &mut exprs,
        &mut types,
        &mut names,
        &mut nodes,
        &mut errors,
        &mut work,
        out,
    )
}

// Says that the jet list is refused.
fn refuse_jets(out: &mut [u8]) -> Option<usize>
    ensures answer { result ≡ list_answer refused_jets (length out.old) }
    ensures output { out.new ≡ listed_in refused_jets out.old }
{
    if out.len() < REFUSED {
        None
    } else {
        let mut output = Output::new(out);
        output.put(b"refused jets\n");
        Some(output.place())
    }
}

// How many bytes were written.
fn bytes_of(answer: Option<usize>) -> usize
    ensures { result ≡ bytes_of answer }
{
    answer.unwrap_or(0)
}

// Writes the sheet, if there is room for all of it.
fn fill(source: &[u8], jets: &[u8], out: &mut [u8]) -> Option<usize>
    ensures answer { result ≡ list_answer (sheet source.now jets.now) (length out.old) }
    ensures output { out.new ≡ listed_in (sheet source.now jets.now) out.old }
{
    if JETS < jets.len() {
        refuse_jets(out)
    } else {
        list_source(source, jets, out)
    }
}

// Writes the sheet, if there is room for all of it, and answers how many bytes were written.
pub fn fill_sheet(source: &[u8], jets: &[u8], out: &mut [u8]) -> usize
    ensures count { result ≡ bytes_of (list_answer (sheet source.now jets.now) (length out.old)) }
    ensures output { out.new ≡ listed_in (sheet source.now jets.now) out.old }
    ensures inside { (result ≤ length out.new) × (result ≡ length (take result out.new)) }
{
    let answer = fill(source, jets, out);
    bytes_of(answer)
}
