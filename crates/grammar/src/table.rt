// The table of the commands: what each is called, and what its words must be.
ghost use Rattle.std.specs.Prelude.{◌≡◌};
ghost use Rattle.words.specs.Rows.{row_named};
ghost use Rattle.grammar.specs.Table.{commands, shape_named, shape_at};

use crate::Shape;

// A row for each command, and what its words must be; the last row is for all other lines.
const COMMANDS: [u8; 585] = *b"terminal word32 word8 amount text8 text15
sign-on
sale amount card chip? field55
authorise amount card chip? field55
sale-void word32
complete-void word32
authorise-void amount card text6 date
complete amount card text6 date
refund amount card text12 date
start word8 amount card? word32 text12? text6? word8 word8 field55?
answer bytes mac
reply code answered? bad?
reconcile digit
date date
centre-batch batch
echo switch
no-answer
power
card-agrees
card-declines
send-reversal
settle
upload
counts
totals
state
journal
message
fields
unknown any any any any any any any any any any
";

// What words may be, by name; no word may stand where there is no name.
const SHAPE_NAMES: [u8; 153] = *b"word32
word8
digit
batch
amount
card
card?
text6
text8
text12
text15
text6?
text12?
chip?
field55
field55?
date
code
bytes
mac
answered?
bad?
switch
any
";

const SHAPES: [Shape; 25] = [
    Shape::Number(4294967295),
    Shape::Number(255),
    Shape::Number(9),
    Shape::Number(999999),
    Shape::Number(999999999999999999),
    Shape::Card,
    Shape::CardOrNone,
    Shape::Text(6),
    Shape::Text(8),
    Shape::Text(12),
    Shape::Text(15),
    Shape::TextOrNone(6),
    Shape::TextOrNone(12),
    Shape::Chip,
    Shape::Field55,
    Shape::Field55OrNone,
    Shape::Date,
    Shape::Code,
    Shape::Bytes,
    Shape::Mac,
    Shape::Bad(true),
    Shape::Bad(false),
    Shape::Switch,
    Shape::Any,
    Shape::End,
];

// The number of the row of a line whose first word is w.
pub fn row_of(w: &[u8]) -> usize
    ensures { result ≡ row_named 29 w.now commands }
{
    words::row_named(29, w, &COMMANDS)
}

// What word i of a line must be, the first being 0, where the line has row k.
#[tactic(auto, unfolding(crate::specs::Table::shape_at))]
pub fn shape_at(k: usize, i: u8) -> Shape
    ensures { result ≡ shape_at k i }
{
    shape_named(words::word(words::row(&COMMANDS, k), i))
}

fn shape_named(w: &[u8]) -> Shape
    ensures { result ≡ shape_named w.now }
{
    let k = words::row_named(24, w, &SHAPE_NAMES);
    SHAPES.get(k).copied().unwrap_or(Shape::End)
}
