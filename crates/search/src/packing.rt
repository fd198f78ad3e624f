// Rows as they stand in a workspace: one behind another, each as its length and its literals.
ghost use Rattle.std.specs.Prelude.{◌≡◌, true};
ghost use Rattle.std.specs.Iterator.{YieldsFirstRef, item_count};
ghost use Rattle.search.specs.Layout.{packed, rows_in};

use rows::Literal;

// The rows that are left, of literals of so many variables. A workspace is plain numbers by the rules, so what they are is said
// beside them. No Model: its readers want to know that each literal is narrow, which the list of rows would not say.
#[derive(Clone, Copy)]
pub(crate) struct PackedRows<'a> {
    pub(crate) vars: usize,
    pub(crate) left: usize,
    pub(crate) words: &'a [u16],
    ghost formed: { packed vars left words.now ≡ true },
}

impl<'a> Iterator for PackedRows<'a> {
    type Item = &'a [Literal];

    ghost next_gives = { YieldsFirstRef (λ rows. rows_in rows.left rows.words.now) };

    ghost remaining = { item_count (λ rows. rows_in rows.left rows.words.now) };

    fn next(&mut self) -> Option<&'a [Literal]> {
        let (len, others) = self.words.split_first()?;
        let (row, words) = others.split_at(*len as usize);
        self.words = words;
        self.left -= 1;
        Some(row)
    }
}
