// Linear forms over registers, modulo 2^32.
ghost use Rattle.std.specs.Prelude.{◌≡◌, ◌+◌, ◌*◌, ◌<◌, true, IfSome, if◌then◌else◌, ◌==◌, length, slice_set};
ghost use Rattle.pass_dataflow_facts.specs.Forms.{Numbers, Same, are_of, factor_in, form_value, is_of};

/// So many times the number of a register, which is the word that it holds, or how many bytes the pointer that it holds is behind the
/// first of its array.
#[derive(Clone, Copy)]
pub struct Term {
    pub register: u32,
    pub factor: u32,
}

/// A constant and the sum of four terms, modulo 2^32; a term with the factor 0 is for nothing.
#[derive(Clone, Copy)]
pub struct Form {
    pub terms: [Term; 4],
    pub constant: u32,
}

const NOTHING: Term = Term {
    register: 0,
    factor: 0,
};

impl Term {
    /// Whether it is of a register.
    pub fn is_of(self, register: u32) -> bool
        ensures { result ≡ is_of register self }
    {
        self.register == register && self.factor != 0
    }

    fn times(self, factor: u32) -> Term
        ensures { (v : Numbers) → Same (result.factor * v result.register) (factor * (self.factor * v self.register)) }
    {
        Term {
            register: self.register,
            factor: self.factor.wrapping_mul(factor),
        }
    }

    /// The factor of a register.
    fn factor_of(self, register: u32) -> u32
        ensures { result ≡ (if self.register == register then self.factor else 0) }
    {
        if self.register == register {
            self.factor
        } else {
            0
        }
    }
}

impl Form {
    pub fn constant(word: u32) -> Form
        ensures { (v : Numbers) → form_value v result ≡ word }
    {
        Form {
            terms: [NOTHING; 4],
            constant: word,
        }
    }

    pub fn register(register: u32) -> Form
        ensures { (v : Numbers) → form_value v result ≡ v register }
    {
        let first = Term {
            register,
            factor: 1,
        };
        Form {
            terms: [first, NOTHING, NOTHING, NOTHING],
            constant: 0,
        }
    }

    /// Whether it has a register.
    pub fn has(self, register: u32) -> bool
        ensures { result ≡ are_of register self.terms }
    {
        for term in self.terms {
            if term.is_of(register) {
                return true;
            }
        }
        false
    }

    /// How often it has a register.
    pub fn factor(self, register: u32) -> u32
        ensures { Same result (factor_in register self.terms) }
    {
        let mut factor = 0u32;
        for term in self.terms {
            factor = factor.wrapping_add(term.factor_of(register));
        }
        factor
    }

    fn with_term_at(self, at: usize, term: Term) -> Form
        requires { at < length self.terms }
        ensures terms { result.terms ≡ slice_set self.terms at term }
        ensures constant { result.constant ≡ self.constant }
    {
        let mut terms = self.terms;
        terms[at] = term;
        Form {
            terms,
            constant: self.constant,
        }
    }

    /// One multiple more, where the form has the register.
    fn with_more(self, term: Term) -> Option<Form>
        ensures { IfSome result (λ f. (v : Numbers) → Same (form_value v f) (form_value v self + term.factor * v term.register)) }
    {
        for at in 0..4 {
            let old = self.terms[at];
            if old.is_of(term.register) {
                let new = Term {
                    register: term.register,
                    factor: old.factor.wrapping_add(term.factor),
                };
                return Some(self.with_term_at(at, new));
            }
        }
        None
    }

    /// One term more, where there is a place for it.
    fn with_new(self, term: Term) -> Option<Form>
        ensures { IfSome result (λ f. (v : Numbers) → Same (form_value v f) (form_value v self + term.factor * v term.register)) }
    {
        for at in 0..4 {
            if self.terms[at].factor == 0 {
                return Some(self.with_term_at(at, term));
            }
        }
        None
    }

    fn with(self, term: Term) -> Option<Form>
        ensures { IfSome result (λ f. (v : Numbers) → Same (form_value v f) (form_value v self + term.factor * v term.register)) }
    {
        if term.factor == 0 {
            return Some(self);
        }
        match self.with_more(term) {
            Some(form) => Some(form),
            None => self.with_new(term),
        }
    }

    /// A constant more.
    pub fn moved(self, by: u32) -> Form
        ensures value { (v : Numbers) → Same (form_value v result) (form_value v self + by) }
        ensures terms { result.terms ≡ self.terms }
    {
        let terms = self.terms;
        Form {
            terms,
            constant: self.constant.wrapping_add(by),
        }
    }

    /// A multiple of another form more, where there is a place for its terms.
    pub fn plus(self, factor: u32, other: Form) -> Option<Form>
        ensures { IfSome result (λ f. (v : Numbers) → Same (form_value v f) (form_value v self + factor * form_value v other)) }
    {
        let mut all = self.moved(other.constant.wrapping_mul(factor));
        for term in other.terms {
            match all.with(term.times(factor)) {
                None => return None,
                Some(more) => all = more,
            }
        }
        Some(all)
    }

    /// Whether it has no register.
    pub fn is_constant(self) -> bool
        ensures { result ≡ true → (v : Numbers) → form_value v self ≡ self.constant }
    {
        for term in self.terms {
            if term.factor != 0 {
                return false;
            }
        }
        true
    }
}
