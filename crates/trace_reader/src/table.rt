//! Words that stand for something.

ghost use Rattle.std.specs.Prelude.{◌≡◌, map};
ghost use Rattle.trace_reader.specs.Reading.{IsReading, choose};

use script_lang::Fault;

/// What stands beside a word in a table. None exactly where no row has the word.
pub fn look_up<T: Copy>(mut table: &[(&[u8], T)], word: &[u8]) -> Option<T>
    ensures { result ≡ choose (map (λ row. (row.0.now, row.1)) table.entry.now) word.now }
{
    while let [row, rest @ ..] = table {
        if row.0 == word {
            return Some(row.1);
        }
        table = rest;
    }
    None
}

/// What stands beside a word in a table, where it must stand.
pub fn named<T: Copy>(table: &[(&[u8], T)], word: &[u8]) -> Result<T, Fault>
    ensures { IsReading result (choose (map (λ row. (row.0.now, row.1)) table.now) word.now) }
{
    look_up(table, word).ok_or(Fault::Bad)
}
