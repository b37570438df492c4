// What was found of the executable judged before. Good entries at the same bytes, the names of the same
// symbol table and the flow of the same main are taken over: sixteen may share every table, and a main.
ghost use Rattle.std.specs.Prelude.{◌≡◌, IfSome};
ghost use Rattle.answer.specs.Answers.{answered, given};
ghost use Rattle.flow.specs.Flow.{flow_answer};
ghost use Rattle.tables.specs.Names.{names_end};
ghost use Rattle.verifier.specs.Executables.{symbols_of};
ghost use Rattle.verifier.specs.Inside.{good_in, good_entries};

use answer::Refusal;
use binary::{Range, bytes_of};
use container::{Executable, Table};
use flow::{Measured, flow_of};
use tables::names_end;

// An executable whose entries are all good, where the good names of its symbol table end, and what the flow
// check measured of its main.
#[derive(Clone, Copy)]
pub struct Earlier {
    pub executable: Executable,
    pub names: u64,
    pub measured: Measured,
}

// How many entries of each table, from the first on, are known to be good.
#[derive(Clone, Copy, Default)]
pub struct GoodEntries {
    pub constants: u32,
    pub labels: u32,
    pub outputs: u32,
    pub uniforms: u32,
}

// Where the good names of a symbol table end.
fn names_end_of(file: &[u8], symbols: Table) -> u64
    ensures { result ≡ names_end (symbols_of file.now symbols) }
{
    let start = symbols.start;
    let range = Range {
        start,
        size: symbols.count as u64,
    };
    names_end(bytes_of(file, range))
}

// Where the good names of a symbol table end: as before, if it is the earlier executable's.
pub(crate) fn names_after(file: &[u8], earlier: Option<Earlier>, symbols: Table) -> u64
    requires { IfSome earlier (λ k. k.names ≡ names_end (symbols_of file.now k.executable.symbols)) }
    ensures { result ≡ names_end (symbols_of file.now symbols) }
{
    if let Some(found) = earlier {
        let before = found.executable.symbols;
        if (before.start == symbols.start) & (before.count == symbols.count) {
            return found.names;
        }
    }
    names_end_of(file, symbols)
}

// How many of a table's entries, from the first on, are known to be good: those that it shares with a table
// of good ones, if both are tested with the same names. Constants and outputs have none.
fn good_in(same_names: bool, good: Table, table: Table) -> u32
    ensures { result ≡ good_in same_names good table }
{
    if same_names & (good.start == table.start) {
        good.count.min(table.count)
    } else {
        0
    }
}

// Those of an executable with these names.
pub(crate) fn good_entries(earlier: Option<Earlier>, e: Executable, names: u64) -> GoodEntries
    ensures { result ≡ good_entries earlier e names }
{
    let Some(found) = earlier else {
        return GoodEntries::default();
    };
    let good = found.executable;
    let same_names = names == found.names;
    GoodEntries {
        constants: good_in(true, good.constants, e.constants),
        labels: good_in(same_names, good.labels, e.labels),
        outputs: good_in(true, good.outputs, e.outputs),
        uniforms: good_in(same_names, good.uniforms, e.uniforms),
    }
}

// The flow check of an executable's main: as before, if it is the earlier executable's, of the same type.
pub(crate) fn flow_after(
    words: &[u32],
    earlier: Option<Earlier>,
    e: Executable,
) -> Result<Measured, Refusal>
    requires { IfSome earlier (λ k. given k.measured ≡ flow_answer words.now k.executable.shader_type k.executable.main.0 k.executable.endmain.0) }
    ensures { answered result ≡ flow_answer words.now e.shader_type e.main.0 e.endmain.0 }
{
    if let Some(found) = earlier {
        let before = found.executable;
        let same_main = (before.main == e.main) & (before.endmain == e.endmain);
        if same_main & (before.shader_type == e.shader_type) {
            return Ok(found.measured);
        }
    }
    flow_of(words, e.shader_type, e.main.0, e.endmain.0)
}
