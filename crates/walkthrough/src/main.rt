#![tactic(auto)]

ghost use Rattle.std.specs.Prelude.{◌≡◌, ◌*ℤ◌};
ghost use Rattle.ring.specs.Rings.{integer};

use field::Field;
use field::residue::{F17, Modulus, Residue};
use folding::columns::rows_text;
use folding::{Folded, fold};
use std::io;
use worked::worked_values;

// A customer's parameter sheet.
const SHEET: &str = "          2          6          2
          2          1
          1          0
          0          1
          2          2
          3          4
          5          6
          0          0
          1          1
          3          0
";

fn main(rt: HostRuntime) -> io::Result<()> {
    rt.println(
        "1. A parameter sheet arrives: sizes, a matrix column, one line of constants a round.",
    )?;
    rt.print(SHEET)?;
    tell(&rt, SHEET.as_bytes())?;
    tell_products(&rt)?;
    tell_small_field(&rt)?;
    tell_damaged(&rt)
}

// What was read of a sheet and folded from it, or why it is refused.
fn tell(rt: &(impl Print + AllocGlobal), bytes: &[u8]) -> io::Result<()> {
    match fold::<F17>(rt.alloc(), bytes) {
        Ok(folded) => tell_folded(rt, &folded),
        Err(error) => println!(rt; "   answered: {error}"),
    }
}

fn tell_folded(rt: &(impl Print + AllocGlobal), folded: &Folded<F17>) -> io::Result<()> {
    let sheet = &folded.sheet;
    println!(rt;
        "2. It is read in the field of 17: a state has {} elements,",
        sheet.width
    )?;
    println!(rt;
        "   {} full and {} partial rounds. The constants, a line a round:",
        sheet.rounds_f, sheet.rounds_p
    )?;
    rt.print(rows_text(rt.alloc(), sheet.width, &sheet.constants)?)?;
    rt.println(
        "3. The column is expanded: M, row by row. Each column is the one before it, moved down.",
    )?;
    rt.print(rows_text(rt.alloc(), sheet.width, &folded.matrix)?)
}

// The product of the elements for `a` and `b`: the element for the whole number `a` times `b`, in every field.
fn product<F: Field>(a: i32, b: i32) -> F
    ensures { F.value result ≡ integer F.ring (a *ℤ b) }
{
    F::from_i64(i64::from(a)) * F::from_i64(i64::from(b))
}

// The field's product beside the remainder of the product of whole numbers.
fn tell_product<const P: u32>(rt: &impl Print, a: i32, b: i32) -> io::Result<()>
where
    Residue<P>: Modulus<P>,
{
    let residue = product::<Residue<P>>(a, b).as_canonical_u32();
    let whole = i64::from(a) * i64::from(b);
    let remainder = whole.rem_euclid(i64::from(P));
    let verdict = if i64::from(residue) == remainder {
        "agree"
    } else {
        "DIFFER"
    };
    println!(rt;
        "   modulo {P}: {a} times {b} gives {residue}, and {whole} leaves {remainder}: they {verdict}"
    )
}

fn tell_products(rt: &impl Print) -> io::Result<()> {
    rt.println(
        "4. The bench that prepares, the card that runs and the verifier share one arithmetic.\n   So its products are held to those of whole numbers:",
    )?;
    tell_product::<17>(rt, -5, 7)?;
    tell_product::<17>(rt, i32::MIN, i32::MAX)?;
    tell_product::<2130706433>(rt, 65536, 65537)?;
    tell_product::<2130706433>(rt, i32::MIN, i32::MAX)?;
    tell_product::<2013265921>(rt, 65536, 65537)?;
    tell_product::<2013265921>(rt, i32::MAX, i32::MAX)
}

fn tell_small_field(rt: &impl Print) -> io::Result<()> {
    let [minus_one, minus_modulus, least] = worked_values();
    rt.println(
        "5. Whole numbers of either sign enter a field as sums of ones. In the field of 17:",
    )?;
    println!(rt;
        "   -1 gives {minus_one}, -17 gives {minus_modulus}, -9223372036854775808 gives {least}."
    )
}

fn tell_damaged(rt: &(impl Print + AllocGlobal)) -> io::Result<()> {
    rt.println("6. A plus sign on line 3: the line is answered, and nothing is guessed.")?;
    tell_with(rt, 66, b'+')?;
    rt.println("   A width of 1:")?;
    tell_with(rt, 10, b'1')?;
    rt.println("   The last line cut off before its end:")?;
    match SHEET.as_bytes() {
        [first @ .., _] => tell(rt, first),
        [] => Ok(()),
    }
}

// The sheet with one byte changed.
fn tell_with(rt: &(impl Print + AllocGlobal), at: usize, byte: u8) -> io::Result<()> {
    let mut bytes = SHEET.as_bytes().to_vec(rt.alloc())?;
    if let Some(place) = bytes.get_mut(at) {
        *place = byte;
    }
    tell(rt, &bytes)
}
