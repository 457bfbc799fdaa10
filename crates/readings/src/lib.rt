// Known examples: what the definitions give, proved as one fact, and what the public calls answer.
#![tactic(auto)]

ghost use Rattle.std.specs.Prelude.{◌≡◌, Ok};
ghost use Rattle.readings.specs.Known.{Known};

use kind::Kind;
use kind::counts::Counts;
use kind::field::Field;
use refusal::Refusal;

pub mod stores;

// What the public calls answer to the examples, each field being named as its example.
#[derive(Clone, Copy, PartialEq, Eq, Debug)]
pub struct Answers {
    pub smallest_field: u32,
    pub aes_product: u32,
    pub widest_counts: u32,
}

// The examples worked through by the public calls. That the definitions give the same is part of the promise.
pub fn known() -> Result<Answers, Refusal>
    ensures fact { Known }
    ensures answers { result ≡ Ok (record { smallest_field = 3; aes_product = 0xC1; widest_counts = 0 }) }
{
    Ok(Answers {
        smallest_field: Field::new(2, 7)?.product(2, 2),
        aes_product: Field::new(8, 0x11b)?.product(0x57, 0x83),
        widest_counts: Counts::new(32)?.product(65_536, 65_536),
    })
}

#[cfg(test)]
mod tests {
    use super::*;
    use kind::multiples::multiple;
    use kind::powers::base_power;
    use refusal::{Fault, Layer};
    use std::test::Fail;

    // The error of a call that refuses.
    pub(crate) fn refused(fault: Fault, place: usize, layer: Layer) -> Option<Refusal> {
        Some(Refusal {
            fault,
            place,
            layer,
        })
    }

    fn bad_kind(size: u32) -> Option<Refusal> {
        refused(Fault::BadKind, size as usize, Layer::Kind)
    }

    #[test]
    fn answers(rt: HostRuntime) -> Result<(), Fail> {
        let expected = Answers {
            smallest_field: 3,
            aes_product: 0xc1,
            widest_counts: 0,
        };
        assert_eq!(rt; known()?, expected);
        Ok(())
    }

    #[test]
    fn widths(rt: HostRuntime) -> Result<(), Fail> {
        let narrow = Counts::new(1)?;
        assert_eq!(rt;
            (narrow.base(), narrow.sum(1, 1), narrow.negative(1)),
            (0, 0, 1)
        );
        assert_eq!(rt;
            (narrow.is_code(1), narrow.is_code(2), narrow.sum(2, 1)),
            (true, false, 0)
        );
        let wide = Counts::new(32)?;
        assert_eq!(rt;
            (
                wide.sum(u32::MAX, 1),
                wide.negative(1),
                wide.product(u32::MAX, u32::MAX),
            ),
            (0, u32::MAX, 1)
        );
        for width in [0, 33, u32::MAX] {
            assert_eq!(rt; Counts::new(width).err(), bad_kind(width));
        }
        Ok(())
    }

    #[test]
    fn degrees(rt: HostRuntime) -> Result<(), Fail> {
        for (degree, modulus) in [(2, 4), (2, 7), (8, 0x100), (8, 0x1ff)] {
            let field = Field::new(degree, modulus)?;
            assert_eq!(rt;
                (field.is_code((1 << degree) - 1), field.is_code(1 << degree)),
                (true, false)
            );
        }
        for (degree, modulus) in [
            (0, 1),
            (1, 3),
            (2, 3),
            (2, 8),
            (8, 0xff),
            (8, 0x200),
            (9, 0x211),
            (u32::MAX, 1),
        ] {
            assert_eq!(rt; Field::new(degree, modulus).err(), bad_kind(degree));
        }
        Ok(())
    }

    #[test]
    fn multiples(rt: HostRuntime) -> Result<(), Fail> {
        let bytes = Counts::new(8)?;
        for (times, code, answer) in [
            (0, 7, 0),
            (1, 7, 7),
            (-2, 7, 242),
            (i32::MIN, 1, 0),
            (3, 256, 0),
        ] {
            assert_eq!(rt; multiple(&bytes, times, code), answer);
        }
        let field = Field::new(8, 0x11b)?;
        assert_eq!(rt;
            (multiple(&field, -2, 0x57), multiple(&field, -3, 0x57)),
            (0, 0x57)
        );
        assert_eq!(rt;
            (
                base_power(&bytes, 0),
                base_power(&bytes, 7),
                base_power(&bytes, 8),
            ),
            (1, 128, 0)
        );
        assert_eq!(rt;
            (base_power(&field, 8), base_power(&field, 255)),
            (0x1b, base_power(&field, 0))
        );
        Ok(())
    }

    #[test]
    fn lines(rt: HostRuntime) -> Result<(), Fail> {
        let Err(refusal) = Counts::new(33) else {
            return Err(Fail::new("33 was taken"));
        };
        assert_eq!(rt;
            format!(in rt.alloc(); "{refusal}")?.as_str(),
            "refused 4 at 33 layer kind"
        );
        Ok(())
    }
}
