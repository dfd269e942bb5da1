#![tactic(auto)]

use folding::output::fold_text;
use std::io;
use std::io::Read;

// Prints what the sheet on standard input folds to, or number and place of its refusal.
fn main(rt: HostRuntime) -> io::Result<()> {
    let mut bytes = Vec::new(rt.alloc());
    rt.stdin().read_to_end(&mut bytes)?;
    let text = fold_text(rt.alloc(), &bytes)?;
    rt.print(text)
}
