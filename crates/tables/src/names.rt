// Names in a symbol table.
ghost use Rattle.std.specs.Prelude.{◌≡◌};
ghost use Rattle.tables.specs.Names.{names_end};

// One past the last 00 byte of a symbol table; 0 if it has none. A name is good exactly if it starts before
// that place, so the table is searched once for all names.
pub fn names_end(symbols: &[u8]) -> u64
    ensures { result ≡ names_end symbols.now }
{
    symbols
        .iter()
        .rposition(|&b| b == 0)
        .map_or(0, |last| last as u64 + 1)
}
