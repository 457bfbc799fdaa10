// Known products in fields of characteristic two, run through the field kind and printed with what they should be.
#![tactic(auto)]

ghost use Rattle.std.specs.Prelude.{◌≡◌, ◌+◌, ◌-◌, ◌^◌, min, if◌then◌else◌, ◌==◌};
ghost use Rattle.kind.specs.Field.{field as ring_of_field};

use anyhow::anyhow;
use kind::Kind;
use kind::field::Field;
use std::fmt;

// Whether an answer is the product that is expected.
#[derive(Clone, Copy, PartialEq, Eq, Debug)]
enum Verdict {
    Holds,
    Fails,
}

impl fmt::Display for Verdict {
    fn fmt<W: fmt::Write>(&self, f: &mut fmt::Formatter<W>) -> fmt::Result {
        f.write_str(match self {
            Verdict::Holds => "holds",
            Verdict::Fails => "fails",
        })
    }
}

// Two factors and the product that is expected of them. With names for the fields each row of the tables below would take five lines.
struct Vector(u32, u32, u32);

impl Vector {
    // What the field kind answers to the factors.
    fn answer(&self, field: &Field) -> u32
        ensures { result ≡ (ring_of_field field.now.degree field.now.modulus).product self.now.0 self.now.1 }
    {
        field.product(self.0, self.1)
    }

    fn verdict(&self, answer: u32) -> Verdict
        ensures { result ≡ (if answer == self.now.2 then Verdict.Holds else Verdict.Fails) }
    {
        if answer == self.2 {
            Verdict::Holds
        } else {
            Verdict::Fails
        }
    }
}

// Six products that the AES standard works through, the chain of doublings among them, and three pairs of inverses in its field.
const AES: [Vector; 9] = [
    Vector(0x57, 0x83, 0xc1),
    Vector(0x57, 0x13, 0xfe),
    Vector(0x57, 0x02, 0xae),
    Vector(0x57, 0x04, 0x47),
    Vector(0x57, 0x08, 0x8e),
    Vector(0x57, 0x10, 0x07),
    Vector(0x53, 0xca, 0x01),
    Vector(0x02, 0x8d, 0x01),
    Vector(0x03, 0xf6, 0x01),
];

// The fields of 4 and of 16 elements, worked out apart from this code.
const FOUR: [Vector; 3] = [Vector(2, 2, 3), Vector(2, 3, 1), Vector(3, 3, 2)];

const SIXTEEN: [Vector; 5] = [
    Vector(2, 9, 1),
    Vector(3, 14, 1),
    Vector(7, 6, 1),
    Vector(15, 8, 1),
    Vector(9, 9, 13),
];

// How many vectors hold, and how many fail.
#[derive(Default, Drop)]
struct Score {
    hold: u64,
    fail: u64,
}

impl Score {
    fn count(&mut self, verdict: Verdict)
        ensures holds { verdict ≡ Verdict.Holds → self.new ≡ record self.old { hold = min (self.old.hold + 1) (2 ^ 64 - 1) } }
        ensures fails { verdict ≡ Verdict.Fails → self.new ≡ record self.old { fail = min (self.old.fail + 1) (2 ^ 64 - 1) } }
    {
        match verdict {
            Verdict::Holds => self.hold = self.hold.saturating_add(1),
            Verdict::Fails => self.fail = self.fail.saturating_add(1),
        }
    }
}

impl fmt::Display for Score {
    fn fmt<W: fmt::Write>(&self, f: &mut fmt::Formatter<W>) -> fmt::Result {
        write!(f, "{} hold, {} fail", self.hold, self.fail)
    }
}

// The vectors of one field, with its degree and modulus.
#[derive(Drop)]
struct Section<'a> {
    degree: u32,
    modulus: u32,
    vectors: &'a [Vector],
}

impl Section<'_> {
    // Runs the vectors, and prints each with its expectation and whether it holds.
    fn run(&self, rt: &impl Print, score: &mut Score) -> anyhow::Result<()> {
        // A refusal is printed on standard output, as every program of ours does, and so not passed on.
        let field = match Field::new(self.degree, self.modulus) {
            Ok(field) => field,
            Err(refusal) => {
                println!(rt; "{refusal}")?;
                return Err(anyhow!("the field is refused"));
            }
        };
        println!(rt;
            "field of degree {}, modulus {:X}",
            self.degree, self.modulus
        )?;
        for vector in self.vectors {
            let Vector(left, right, product) = vector;
            let answer = vector.answer(&field);
            let verdict = vector.verdict(answer);
            score.count(verdict);
            println!(rt;
                "{left:02X} x {right:02X} = {answer:02X}, expected {product:02X}: {verdict}"
            )?;
        }
        Ok(())
    }
}

fn main(rt: HostRuntime) -> anyhow::Result<()> {
    let sections = [
        Section {
            degree: 8,
            modulus: 0x11b,
            vectors: &AES,
        },
        Section {
            degree: 2,
            modulus: 0x7,
            vectors: &FOUR,
        },
        Section {
            degree: 4,
            modulus: 0x13,
            vectors: &SIXTEEN,
        },
    ];
    let mut score = Score::default();
    for section in &sections {
        section.run(&rt, &mut score)?;
    }
    println!(rt; "{score}")?;
    if score.fail > 0 {
        return Err(anyhow!("a vector fails"));
    }
    Ok(())
}
