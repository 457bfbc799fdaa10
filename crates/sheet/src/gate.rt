// Gates: what a gate computes, and of which signals.
ghost use Rattle.std.specs.Prelude.{◌≡◌};
ghost use Rattle.sheet.specs.Gates.{unary as unary_of, binary as binary_of};

#[derive(Clone, Copy, Debug, Eq, PartialEq)]
pub enum UnaryOp {
    Buf,
    Not,
}

#[derive(Clone, Copy, Debug, Eq, PartialEq)]
pub enum BinaryOp {
    And,
    Or,
    Xor,
    Nand,
    Nor,
    Xnor,
}

// A gate with its operands: labels on a sheet as it was read, ranks on an ordered sheet.
#[derive(Clone, Copy, Debug, Eq, PartialEq)]
pub enum Gate {
    Constant(bool),
    Unary(UnaryOp, u16),
    Binary(BinaryOp, u16, u16),
}

// A gate as it is declared, with the label of its output.
#[derive(Clone, Copy, Debug, Default, Eq, PartialEq)]
pub struct Declared {
    pub output: u16,
    pub gate: Gate,
}

// What a table of gates holds where none stands. By hand, since a derive takes only a case without fields.
impl Default for Gate {
    ghost use Rattle.std.specs.Prelude.{◌≡◌, false};
    ghost use Rattle.sheet.specs.declared.gate.Gate.TheVariants.{Constant};

    ghost is_default = { λ g. g ≡ Constant false };

    fn default() -> Self {
        Gate::Constant(false)
    }
}

impl UnaryOp {
    pub fn value(self, x: bool) -> bool
        ensures { result ≡ unary_of self x }
    {
        match self {
            UnaryOp::Buf => x,
            UnaryOp::Not => !x,
        }
    }
}

impl BinaryOp {
    pub fn value(self, x: bool, y: bool) -> bool
        ensures { result ≡ binary_of self x y }
    {
        match self {
            BinaryOp::And => x && y,
            BinaryOp::Or => x || y,
            BinaryOp::Xor => x != y,
            BinaryOp::Nand => !(x && y),
            BinaryOp::Nor => !(x || y),
            BinaryOp::Xnor => x == y,
        }
    }
}
