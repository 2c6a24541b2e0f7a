ghost use Rattle.std.specs.Prelude.{◌≡◌};
ghost use Rattle.c_tree.specs.declared.expression.Specifier.TheVariants as words;
ghost use Rattle.types_rules.specs.Specifiers.{are_wrong, has, is_const, kind_spelled, repeats, spelled, type_of, with_sign, word_number};

use c_tree::expression::Specifier;
use types_value::Kind;

fn word_number(word: Specifier) -> u8
    ensures { result ≡ word_number word }
{
    match word {
        Specifier::Static => 0,
        Specifier::Extern => 1,
        Specifier::Inline => 2,
        Specifier::Const => 3,
        Specifier::Void => 4,
        Specifier::Char => 5,
        Specifier::Short => 6,
        Specifier::Int => 7,
        Specifier::Long => 8,
        Specifier::Signed => 9,
        Specifier::Unsigned => 10,
    }
}

/// Whether a word stands among specifiers.
pub fn has(word: Specifier, specifiers: &[Specifier]) -> bool
    ensures { result ≡ has word specifiers.now }
{
    for other in specifiers {
        if word_number(*other) == word_number(word) {
            return true;
        }
    }
    false
}

/// Whether a word stands there twice. There are eleven words, so it is known within the first twelve.
fn repeats(specifiers: &[Specifier]) -> bool
    ensures { result ≡ repeats specifiers.now }
{
    for i in 0..specifiers.len() {
        if has(specifiers[i], &specifiers[i + 1..]) {
            return true;
        }
    }
    false
}

/// Which words of a type stand among specifiers.
#[derive(Clone, Copy)]
struct Words {
    void: bool,
    char: bool,
    short: bool,
    int: bool,
    long: bool,
    signed: bool,
    unsigned: bool,
}

impl Words {
    fn of(specifiers: &[Specifier]) -> Words
        ensures void { result.void ≡ has words.Void specifiers.now }
        ensures char { result.char ≡ has words.Char specifiers.now }
        ensures short { result.short ≡ has words.Short specifiers.now }
        ensures int { result.int ≡ has words.Int specifiers.now }
        ensures long { result.long ≡ has words.Long specifiers.now }
        ensures signed { result.signed ≡ has words.Signed specifiers.now }
        ensures unsigned { result.unsigned ≡ has words.Unsigned specifiers.now }
    {
        Words {
            void: has(Specifier::Void, specifiers),
            char: has(Specifier::Char, specifiers),
            short: has(Specifier::Short, specifiers),
            int: has(Specifier::Int, specifiers),
            long: has(Specifier::Long, specifiers),
            signed: has(Specifier::Signed, specifiers),
            unsigned: has(Specifier::Unsigned, specifiers),
        }
    }

    /// The type beside `signed`, beside `unsigned`, or beside neither.
    fn with_sign(
        self,
        neither: Option<Kind>,
        signed: Option<Kind>,
        unsigned: Option<Kind>,
    ) -> Option<Kind>
        ensures { result ≡ with_sign self.signed self.unsigned neither signed unsigned }
    {
        match (self.signed, self.unsigned) {
            (false, false) => neither,
            (true, false) => signed,
            (false, true) => unsigned,
            (true, true) => None,
        }
    }

    /// The type that these words spell.
    fn kind(self) -> Option<Kind>
        ensures { result ≡ type_of self.void self.char self.short self.int self.long self.signed self.unsigned }
    {
        match (self.void, self.char, self.short, self.int, self.long) {
            (true, false, false, false, false) => self.with_sign(Some(Kind::Void), None, None),
            (false, true, false, false, false) => self.with_sign(
                Some(Kind::Char),
                Some(Kind::SignedChar),
                Some(Kind::UnsignedChar),
            ),
            (false, false, true, _, false) => self.with_sign(
                Some(Kind::Short),
                Some(Kind::Short),
                Some(Kind::UnsignedShort),
            ),
            (false, false, false, _, true) => self.with_sign(
                Some(Kind::Long),
                Some(Kind::Long),
                Some(Kind::UnsignedLong),
            ),
            (false, false, false, true, false) => self.with_sign(
                Some(Kind::Int),
                Some(Kind::Int),
                Some(Kind::Unsigned),
            ),
            (false, false, false, false, false) => self.with_sign(
                None,
                Some(Kind::Int),
                Some(Kind::Unsigned),
            ),
            _ => None,
        }
    }
}

/// The type that specifiers spell, in any order; none where one stands twice.
pub fn spelled(specifiers: &[Specifier]) -> Option<Kind>
    ensures { result ≡ spelled specifiers.now }
{
    if repeats(specifiers) {
        return None;
    }
    Words::of(specifiers).kind()
}

/// The same; specifiers that spell no type count as int.
pub fn kind_spelled(specifiers: &[Specifier]) -> Kind
    ensures { result ≡ kind_spelled specifiers.now }
{
    match spelled(specifiers) {
        Some(kind) => kind,
        None => Kind::Int,
    }
}

pub fn is_const(specifiers: &[Specifier]) -> bool
    ensures { result ≡ is_const specifiers.now }
{
    has(Specifier::Const, specifiers)
}

/// Whether specifiers spell no type, or one stands where it may not or twice.
pub fn are_wrong(function: bool, block: bool, specifiers: &[Specifier]) -> bool
    ensures { result ≡ are_wrong function block specifiers.now }
{
    if spelled(specifiers).is_none() {
        return true;
    }
    if !function && (has(Specifier::Extern, specifiers) || has(Specifier::Inline, specifiers)) {
        return true;
    }
    block && has(Specifier::Static, specifiers)
}
