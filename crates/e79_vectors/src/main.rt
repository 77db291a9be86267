// Prints the figures of sets of quantities, a line for each: the five quantities, the bit patterns of the six doubles (availability, operational, rate,
// quality, OEE, product) and the five printed figures, `-` where there is no base. What it must print is worked out by `expected.py`.
#![tactic(auto)]

ghost use Rattle.std.specs.Prelude.{T, IfSome};
ghost use Rattle.std.specs.Float.Ieee.Scale.{finite};
ghost use Rattle.e79.specs.Quantities.{Ordered, Portion};

use e79::Quantities;
use std::io;

// The quantities of each set: total time, uptime, production time, and the theoretical production time for actual and for effective units.
const SETS: [[u64; 5]; 47] = [
    // R1-1 of document 002: units by theoretical time, and the hours as it rounds them.
    [604800000, 561600000, 529200000, 520788960, 513588960],
    [604800000, 561600000, 529200000, 520776000, 513576000],
    // R1-2 of document 002: process modules A, B and C, and the tool.
    [604800000, 586800000, 540000000, 504000000, 469800000],
    [604800000, 568800000, 532800000, 522000000, 500400000],
    [604800000, 604800000, 288000000, 270000000, 270000000],
    [1814400000, 1760400000, 1360800000, 1296000000, 1240200000],
    // Zeros from each place of the chain on.
    [604800000, 0, 0, 0, 0],
    [604800000, 586800000, 0, 0, 0],
    [604800000, 586800000, 540000000, 0, 0],
    [604800000, 586800000, 540000000, 504000000, 0],
    [1, 0, 0, 0, 0],
    [9007199254740991, 9007199254740991, 9007199254740991, 0, 0],
    // All five alike, and the least and the greatest total time.
    [1, 1, 1, 1, 1],
    [604800000, 604800000, 604800000, 604800000, 604800000],
    [
        9007199254740991,
        9007199254740991,
        9007199254740991,
        9007199254740991,
        9007199254740991,
    ],
    [9007199254740991, 0, 0, 0, 0],
    [
        9007199254740991,
        9007199254740990,
        9007199254740989,
        9007199254740988,
        9007199254740987,
    ],
    [9007199254740991, 1, 1, 1, 1],
    [
        9007199254740991,
        9007199254740991,
        9007199254740991,
        9007199254740991,
        1,
    ],
    [9007199254740991, 9007199254740990, 9007199254740990, 1, 1],
    [
        9007199254740991,
        4503599627370497,
        4503599627370496,
        4503599627370495,
        2251799813685249,
    ],
    // 1 over 20,000 is half a ten-thousandth and goes up, 1 over 20,001 goes down; 3 over 20,000 goes up to 0.0002.
    [20000, 1, 1, 1, 1],
    [20001, 1, 1, 1, 1],
    [20000, 20000, 20000, 20000, 1],
    [20001, 20001, 20001, 20001, 1],
    [20000, 20000, 3, 3, 3],
    [20001, 20001, 20001, 2, 2],
    // 99,996 over 100,000 prints 1.0000, and so does 99,995, a half; 99,994 does not.
    [100000, 100000, 100000, 100000, 99996],
    [100000, 99995, 99995, 99995, 99995],
    [100000, 99994, 99994, 99994, 99994],
    // Halves of great numbers, and one less.
    [
        9007199254740000,
        9006748894777263,
        9006748894777263,
        9006748894777263,
        450359962737,
    ],
    [
        9007199254740000,
        9006748894777262,
        9006748894777262,
        9006748894777262,
        450359962736,
    ],
    // A product that is off by more than one part in 2^51 of the quotient.
    [
        5582022831669585,
        3199944898648440,
        2946997687052317,
        1537382909172335,
        1461297786886763,
    ],
    // The greatest tool, 64 modules of 366 days, but for a few ms.
    [
        2023833600000,
        2023833599999,
        2023833599998,
        2023833599997,
        2023833599996,
    ],
    // A spread.
    [3, 2, 1, 1, 1],
    [3, 3, 2, 1, 1],
    [7, 6, 5, 4, 3],
    [10, 9, 8, 7, 6],
    [1000003, 999983, 999979, 999961, 999959],
    [
        4503599627370496,
        2251799813685248,
        1125899906842624,
        562949953421312,
        281474976710656,
    ],
    [9007199254740990, 35184372088833, 1073741825, 32769, 1],
    [
        595901608324954,
        438214377499,
        6174029454,
        1034702481,
        1021743,
    ],
    [2783726004611634, 1797952887342, 6055810467, 400689, 272331],
    [
        6376832609927764,
        709725090164370,
        1626585393250,
        657137,
        479856,
    ],
    [2187079202291, 590413842336, 6021934754, 272868583, 251901],
    [2037284008463, 107056861161, 17064426308, 1353162996, 556439],
    [5867784846328379, 2018706354650, 10317675415, 640549, 7767],
];

fn main(rt: HostRuntime) -> io::Result<()> {
    for [total, uptime, production, actual, effective] in SETS {
        print_set(
            &rt,
            Quantities {
                total,
                uptime,
                production,
                actual,
                effective,
            },
        )?;
    }
    Ok(())
}

// The line of one set. Quantities that are not ordered have no figures.
fn print_set(out: &impl Print, q: Quantities) -> io::Result<()> {
    print!(out;
        "{} {} {} {} {}",
        q.total, q.uptime, q.production, q.actual, q.effective
    )?;
    if 0 < q.total
        && q.total <= 9007199254740991
        && q.uptime <= q.total
        && q.production <= q.uptime
        && q.actual <= q.production
        && q.effective <= q.actual
    {
        print_figures(out, q)?;
    }
    print!(out; "\n")
}

#[tactic(auto, using(crate::proofs::Finite::efficiency_finite))]
fn print_figures(out: &impl Print, q: Quantities) -> io::Result<()>
    requires { Ordered q }
{
    let f = e79::figures_of_ordered(q);
    print_efficiency(out, f.availability)?;
    print_efficiency(out, f.operational)?;
    print_efficiency(out, f.rate)?;
    print_efficiency(out, f.quality)?;
    print_double(out, f.oee)?;
    print_double(out, f.product)?;
    print_printed(out, q.uptime, q.total)?;
    print_printed(out, q.production, q.uptime)?;
    print_printed(out, q.actual, q.production)?;
    print_printed(out, q.effective, q.actual)?;
    print_printed(out, q.effective, q.total)
}

fn print_efficiency(out: &impl Print, e: Option<f64>) -> io::Result<()>
    requires { IfSome e (λ x. T (finite x)) }
{
    match e {
        Some(x) => print_double(out, x),
        None => print_no_base(out),
    }
}

#[tactic(auto, using(crate::proofs::Finite::no_nan))]
fn print_double(out: &impl Print, x: f64) -> io::Result<()>
    requires { T (finite x) }
{
    print!(out; " {:016x}", x.to_bits())
}

// Ten-thousandths, with a point and four places.
fn print_printed(out: &impl Print, numerator: u64, denominator: u64) -> io::Result<()>
    requires { Portion numerator denominator }
{
    match e79::printed_of_ordered(numerator, denominator) {
        Some(f) => print!(out; " {}.{:04}", f / 10000, f % 10000),
        None => print_no_base(out),
    }
}

fn print_no_base(out: &impl Print) -> io::Result<()> {
    print!(out; " -")
}
