// Fillings of puzzles as text.
use cycles::Cycles;
use latin::Latin;
use puzzles::Puzzle;
use queens::Queens;
use std::fmt;

/// A puzzle whose fillings can be drawn, line by line.
pub trait Draw: Puzzle {
    /// How many lines there are.
    fn lines(&self) -> u8;

    /// One line, which begins with a space.
    fn draw_line<W: fmt::Write>(
        &self,
        filling: &[u8],
        line: u8,
        f: &mut fmt::Formatter<W>,
    ) -> fmt::Result;
}

// A row of the board: its queen, and a dot in each other column.
impl<'a> Draw for Queens<'a> {
    fn lines(&self) -> u8 {
        self.size()
    }

    fn draw_line<W: fmt::Write>(
        &self,
        filling: &[u8],
        line: u8,
        f: &mut fmt::Formatter<W>,
    ) -> fmt::Result {
        let queen = filling.get(usize::from(line)).copied();
        for column in 0..self.size() {
            f.write_str(if queen == Some(column) { " Q" } else { " ." })?;
        }
        Ok(())
    }
}

// A row of the square: its symbols, and a dot for what is no symbol.
impl<'a> Draw for Latin<'a> {
    fn lines(&self) -> u8 {
        self.size()
    }

    fn draw_line<W: fmt::Write>(
        &self,
        filling: &[u8],
        line: u8,
        f: &mut fmt::Formatter<W>,
    ) -> fmt::Result {
        let size = usize::from(self.size());
        for symbol in filling.iter().skip(usize::from(line) * size).take(size) {
            if *symbol < self.size() {
                write!(f, " {symbol}")?;
            } else {
                f.write_str(" .")?;
            }
        }
        Ok(())
    }
}

// The vertices one after another, and the first again.
impl<'a> Draw for Cycles<'a> {
    fn lines(&self) -> u8 {
        1
    }

    fn draw_line<W: fmt::Write>(
        &self,
        filling: &[u8],
        _line: u8,
        f: &mut fmt::Formatter<W>,
    ) -> fmt::Result {
        for vertex in filling.iter().take(self.places()) {
            write!(f, " {vertex} ->")?;
        }
        if let Some(first) = filling.first() {
            write!(f, " {first}")?;
        }
        Ok(())
    }
}

/// A filling, each line of it on a new line.
#[derive(Drop)]
pub struct Grid<'a, P: Draw> {
    pub puzzle: &'a P,
    pub filling: &'a [u8],
}

impl<'a, P: Draw> fmt::Display for Grid<'a, P> {
    fn fmt<W: fmt::Write>(&self, f: &mut fmt::Formatter<W>) -> fmt::Result {
        for line in 0..self.puzzle.lines() {
            f.write_str("\n ")?;
            self.puzzle.draw_line(self.filling, line, f)?;
        }
        Ok(())
    }
}

/// Two fillings, one beside the other.
#[derive(Drop)]
pub struct Beside<'a, P: Draw> {
    pub puzzle: &'a P,
    pub left: &'a [u8],
    pub right: &'a [u8],
}

impl<'a, P: Draw> fmt::Display for Beside<'a, P> {
    fn fmt<W: fmt::Write>(&self, f: &mut fmt::Formatter<W>) -> fmt::Result {
        for line in 0..self.puzzle.lines() {
            f.write_str("\n ")?;
            self.puzzle.draw_line(self.left, line, f)?;
            f.write_str("   ")?;
            self.puzzle.draw_line(self.right, line, f)?;
        }
        Ok(())
    }
}
