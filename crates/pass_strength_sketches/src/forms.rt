// What else is asked of forms.
use low_ir::Operand;
use pass_dataflow_facts::Form;
use rv_core::Alu;

/// A register by itself, and so much more.
pub fn behind(register: u32, by: u32) -> Form {
    Form::register(register).moved(by)
}

/// The word, if a form has no terms.
pub fn word_in(form: Form) -> Option<u32> {
    if form.is_constant() {
        Some(form.constant)
    } else {
        None
    }
}

/// So many times a form.
fn times(form: Form, factor: u32) -> Option<Form> {
    Form::constant(0).plus(factor, form)
}

fn has_terms_of(a: Form, b: Form) -> bool {
    for term in b.terms {
        if a.factor(term.register) != b.factor(term.register) {
            return false;
        }
    }
    true
}

/// Whether two forms differ by a constant alone.
pub fn has_same_terms(a: Form, b: Form) -> bool {
    has_terms_of(a, b) && has_terms_of(b, a)
}

/// Whether two forms are the same.
pub fn is_same(a: Form, b: Form) -> bool {
    a.constant == b.constant && has_same_terms(a, b)
}

/// Whether an instruction has room for a displacement.
pub fn is_near(word: u32) -> bool {
    word < 0x800 || word >= 0xffff_f800
}

/// Which power of two a word is.
pub fn power_of(word: u32) -> Option<u32> {
    for power in 0..32u32 {
        if 1u32.wrapping_shl(power) == word {
            return Some(power);
        }
    }
    None
}

/// What takes so much away that stands in the instruction.
pub fn negative(operand: Operand) -> Option<u32> {
    match operand {
        Operand::Register(_) => None,
        Operand::Constant(word) => Some(0u32.wrapping_sub(word)),
    }
}

fn product(a: Form, b: Form) -> Option<Form> {
    match word_in(b) {
        Some(word) => times(a, word),
        None => match word_in(a) {
            None => None,
            Some(word) => times(b, word),
        },
    }
}

fn difference(a: Form, b: Form, is_small: bool) -> Option<Form> {
    if is_small { a.plus(u32::MAX, b) } else { None }
}

fn shifted(a: Form, right: Operand) -> Option<Form> {
    match right {
        Operand::Register(_) => None,
        Operand::Constant(word) => times(a, 1u32.wrapping_shl(word % 32)),
    }
}

/// What an operation gives that has this right operand, of these forms of both; whether that is surely a word below 2^32.
pub fn operated(operator: Alu, a: Form, b: Form, right: Operand, is_small: bool) -> Option<Form> {
    match operator {
        Alu::Sum => a.plus(1, b),
        Alu::Difference => difference(a, b, is_small),
        Alu::Product => product(a, b),
        Alu::ShiftLeft => shifted(a, right),
        _ => None,
    }
}
