//! A configuration that is carried over: its text, its pieces, and its statements.
ghost use Rattle.std.specs.Prelude.{◌≡◌, length, slice_get};
ghost use Rattle.sy_conversion.specs.Conversions as spec;
ghost use Rattle.sy_conversion.specs.internal.Written as inside;

use sy_fleet::Fleet;
use sy_fleet::params::Span;
use sy_fleet_text::scan::part;
use sy_fleet_text::{Kind, Mark, Object, Piece, Word};

#[derive(Clone, Copy)]
pub(crate) struct Source<'a> {
    pub text: &'a [u8],
    pub pieces: &'a [Piece],
    pub fleet: &'a Fleet,
}

fn is_layout(kind: Kind) -> bool {
    matches!(kind, Kind::Blank | Kind::Comment | Kind::Continuation)
}

// Whether a statement belongs behind this one.
fn goes_on(kind: Kind) -> bool {
    match kind {
        Kind::Selector | Kind::Filter => true,
        Kind::Mark(mark) => mark == Mark::And,
        Kind::Word(word) => matches!(word, Word::If | Word::Else | Word::Foreach),
        _ => false,
    }
}

fn has_block(kind: Kind) -> bool {
    match kind {
        Kind::Opening(object) => matches!(object, Object::Ruleset | Object::Template),
        _ => false,
    }
}

impl<'a> Source<'a> {
    /// How many statements there are.
    pub fn len(self) -> usize
        ensures { result ≡ length self.entry.fleet.now.statements.items }
    {
        self.fleet.statements.len()
    }

    /// The pieces of a statement.
    pub fn pieces_of(self, statement: usize) -> &'a [Piece] {
        match self.fleet.statements.get(statement) {
            Some(it) => self.pieces.get(it.first..it.end).unwrap_or(&[]),
            None => &[],
        }
    }

    /// Its first piece.
    pub fn first_of(self, statement: usize) -> Option<Piece>
        ensures { result ≡ spec.piece_of self.entry.pieces.now (slice_get self.entry.fleet.now.statements.items statement) }
    {
        match self.fleet.statements.get(statement) {
            Some(it) => self.pieces.get(it.first).copied(),
            None => None,
        }
    }

    /// What it begins with.
    pub fn kind(self, statement: usize) -> Option<Kind> {
        self.first_of(statement).map(|it: Piece| it.kind)
    }

    /// Where it begins.
    pub fn start(self, statement: usize) -> usize {
        match self.first_of(statement) {
            Some(piece) => piece.start,
            None => self.text.len(),
        }
    }

    /// Where the statement before a number ends.
    pub fn end_before(self, statement: usize) -> usize {
        match self.pieces_of(statement.saturating_sub(1)).last() {
            Some(piece) => piece.end,
            None => self.text.len(),
        }
    }

    /// Its last piece.
    fn last_of(self, statement: usize) -> Option<Piece>
        ensures { result ≡ inside.last_of self.entry.pieces.now (slice_get self.entry.fleet.now.statements.items statement) }
    {
        match self.fleet.statements.get(statement) {
            Some(it) => self.pieces.get(it.end.saturating_sub(1)).copied(),
            None => None,
        }
    }

    /// The bytes of a statement.
    pub fn bytes_of(self, statement: usize) -> &'a [u8]
        ensures { result.now ≡ inside.bytes_of self.entry.text.now self.entry.pieces.now self.entry.fleet.now.statements.items statement }
    {
        match self.first_of(statement) {
            Some(first) => match self.last_of(statement) {
                Some(last) => part(self.text, first.start, last.end),
                None => &[],
            },
            None => &[],
        }
    }

    /// The number of the next statement that isn't blank or a comment, from one on.
    pub fn next(self, from: usize) -> Option<usize> {
        for at in from..self.len() {
            if let Some(kind) = self.kind(at) {
                if !is_layout(kind) {
                    return Some(at);
                }
            }
        }
        None
    }

    /// What the last statement before a number begins with that isn't blank or a comment.
    pub fn kind_before(self, statement: usize) -> Option<Kind> {
        for behind in 0..statement {
            let kind = self.kind(statement.saturating_sub(behind).saturating_sub(1))?;
            if !is_layout(kind) {
                return Some(kind);
            }
        }
        None
    }

    /// Whether a statement begins with a block that is a ruleset's.
    pub fn is_of_ruleset(self, statement: usize) -> bool {
        self.kind_before(statement) == Some(Kind::Opening(Object::Ruleset))
    }

    /// Whether a block comes next.
    pub fn is_block(self, from: usize) -> bool {
        match self.next(from) {
            Some(at) => self.kind(at) == Some(Kind::Mark(Mark::BlockOpening)),
            None => false,
        }
    }

    /// Whether an `else` comes next.
    pub fn is_else(self, from: usize) -> bool {
        match self.next(from) {
            Some(at) => self.kind(at) == Some(Kind::Word(Word::Else)),
            None => false,
        }
    }

    /// Where the whole of what begins with a statement ends: its blocks, and what its tests and filters ask for, are of it.
    pub fn end_of_whole(self, first: usize) -> usize {
        let mut end = self.len();
        let mut is_over = false;
        let mut is_head = false;
        let mut block: Option<usize> = None;
        for at in first..self.len() {
            let Some(piece) = self.first_of(at) else {
                return end;
            };
            if let Some(depth) = block {
                if piece.kind == Kind::Mark(Mark::BlockClosing)
                    && piece.depth <= depth.saturating_add(1)
                {
                    block = None;
                    is_over = true;
                    end = at + 1;
                }
            } else if !is_layout(piece.kind) {
                let opens = piece.kind == Kind::Mark(Mark::BlockOpening);
                let is_else = piece.kind == Kind::Word(Word::Else);
                if is_over && !is_else && !(opens && is_head) {
                    return end;
                }
                is_head = has_block(piece.kind);
                if opens {
                    block = Some(piece.depth);
                }
                is_over = !opens && !goes_on(piece.kind);
                end = if is_over { at + 1 } else { self.len() };
            }
        }
        end
    }

    /// The ruleset of the input that begins at a place, by its number; the inputs are looked at from one on, and which comes next is set.
    pub fn ruleset_at(self, at: usize, next: &mut usize) -> usize {
        let inputs = self.fleet.inputs.as_slice();
        for number in *next..inputs.len() {
            if inputs[number].at >= at {
                *next = number;
                return if inputs[number].at == at {
                    inputs[number].ruleset
                } else {
                    0
                };
            }
        }
        0
    }

    /// The name of a ruleset by its number; that of the default one is 0, and has none.
    pub fn ruleset(self, number: usize) -> Option<&'a [u8]> {
        if number == 0 {
            return None;
        }
        self.fleet
            .rulesets
            .get(number - 1)
            .map(|it: &sy_fleet::Named| it.name.of(self.text))
    }

    /// The bytes of a stretch.
    pub fn of(self, span: Span) -> &'a [u8] {
        span.of(self.text)
    }
}
