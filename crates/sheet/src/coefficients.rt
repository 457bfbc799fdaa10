// The kind of coefficient that a file names, itself a kind.
use kind::Kind;
use kind::counts::Counts;
use kind::field::Field;

#[derive(Clone, Copy)]
pub enum Coefficients {
    Field(Field),
    Counts(Counts),
}

impl Coefficients {
    ghost use Rattle.std.specs.Prelude.{◌≡◌};
    ghost use Rattle.sheet.specs.Kinds.{kind_in, named as named_kind};

    // What a kind byte, a size and a modulus name: 1 is the field kind, 2 the counts kind, which has no modulus, so that 0 stands there.
    pub fn named(family: u8, size: u8, modulus: u16) -> Option<Coefficients>
        ensures { kind_in result ≡ named_kind family size modulus }
    {
        match family {
            1 => Field::new(size.into(), modulus.into())
                .ok()
                .map(Coefficients::Field),
            2 if modulus == 0 => Counts::new(size.into()).ok().map(Coefficients::Counts),
            _ => None,
        }
    }
}

// Each call hands on to the kind that it is: a `dyn Kind` may not be handed out by `named`, and a macro would be no plainer.
impl Kind for Coefficients {
    ghost use Rattle.sheet.specs.Kinds.{kind_of, ring_of};
    ghost use Rattle.sheet.specs.KindLaws.{lawful_kind};

    ghost ring = { λ c. ring_of (kind_of c) };

    ghost lawful = { lawful_kind };

    fn is_code(&self, n: u32) -> bool {
        match self {
            Coefficients::Field(field) => field.is_code(n),
            Coefficients::Counts(counts) => counts.is_code(n),
        }
    }

    fn one(&self) -> u32 {
        match self {
            Coefficients::Field(field) => field.one(),
            Coefficients::Counts(counts) => counts.one(),
        }
    }

    fn base(&self) -> u32 {
        match self {
            Coefficients::Field(field) => field.base(),
            Coefficients::Counts(counts) => counts.base(),
        }
    }

    fn sum(&self, a: u32, b: u32) -> u32 {
        match self {
            Coefficients::Field(field) => field.sum(a, b),
            Coefficients::Counts(counts) => counts.sum(a, b),
        }
    }

    fn negative(&self, a: u32) -> u32 {
        match self {
            Coefficients::Field(field) => field.negative(a),
            Coefficients::Counts(counts) => counts.negative(a),
        }
    }

    fn product(&self, a: u32, b: u32) -> u32 {
        match self {
            Coefficients::Field(field) => field.product(a, b),
            Coefficients::Counts(counts) => counts.product(a, b),
        }
    }
}
