// Rows H and I of document 01 and some array positions, through the compiled functions of `names`.
#![tactic(auto)]

use names::digits::digits_of;
use names::{is_hook_name, is_ref_like_name, starts_with_set};
use std::io;

// Prints of each name whether the test holds.
fn print_tests<F: Fn(&[u8]) -> bool>(
    rt: &impl Print,
    test: &str,
    names: &[&str],
    holds: F,
) -> io::Result<()>
    requires { F.IsAlwaysCallable holds }
{
    for name in names {
        let answer = if holds(name.as_bytes()) { "yes" } else { "no" };
        println!(rt; "{test} \"{name}\": {answer}")?;
    }
    Ok(())
}

// Row H, and names at the edges of its rule.
fn row_h(rt: &impl Print) -> io::Result<()> {
    let names = [
        "useX", "use9", "use", "usex", "useA", "useZ", "use0", "use@", "use[", "use:", "uset",
        "UseX", "",
    ];
    print_tests(rt, "hook", &names, is_hook_name)
}

// Row I, and names at the edges of its rule.
fn row_i(rt: &impl Print) -> io::Result<()> {
    let objects = [
        "ref", "aRef", "$Ref", "Ref", "1Ref", "_Ref", "ZRef", "{Ref", "éRef", "aref", "refs",
        "aRefs",
    ];
    print_tests(rt, "ref-like", &objects, |object| {
        is_ref_like_name(object, b"current")
    })?;
    print_tests(rt, "ref-like with another property", &["aRef"], |object| {
        is_ref_like_name(object, b"curren")
    })
}

fn setters(rt: &impl Print) -> io::Result<()> {
    let names = ["set", "setTimer", "settle", "se", "reset"];
    print_tests(rt, "setter", &names, starts_with_set)
}

fn positions(rt: &impl Print) -> io::Result<()> {
    let positions = [0, 9, 10, 99, 100, 65535, 999999999, 1000000000, 4294967295];
    for position in positions {
        print!(rt; "position ")?;
        rt.write_all(digits_of(position).as_slice())?;
        println!(rt)?;
    }
    Ok(())
}

fn main(rt: HostRuntime) -> io::Result<()> {
    row_h(&rt)?;
    row_i(&rt)?;
    setters(&rt)?;
    positions(&rt)
}
