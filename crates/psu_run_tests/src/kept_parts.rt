//! What commits keep: each change of nonvolatile state, confirmed alone and then after each other one. Queries after a
//! power loss are answered as before it, whatever the previous commit had already kept.
use crate::holds::holds;
use crate::images::written_on;
use crate::texts::add_line;
use psu_call_steps::image;
use std::alloc::Global;

// The state before the changes, in which each of them is accepted.
const BEFORE: &str = r#"*PSC 0;:DIAG:PUD:PROT OFF;:VOLT 2;*SAV 3;*DMC "A",#14*RST
MMEM:DATA "F",#13abc;:MMEM:STOR:STAT 3,"S";:MMEM:STOR:MACR "A","M"
*OPC?"#;

const CHANGES: &str = r#"*PSC 0;*SRE 5
*PSC 0;*ESE 6
*PSC 1;*SRE 0;*ESE 0
VOLT 5;*SAV 3
VOLT 7;*SAV 0
*PUD #12hi
*DMC "B",#14*CLS
*RMC "A"
*PMC
MMEM:DATA "G",#11x
MMEM:DEL "F"
MMEM:COPY "F","H"
MMEM:MOVE "F","H"
MMEM:STOR:STAT 0,"T"
MMEM:LOAD:STAT 4,"S"
MMEM:STOR:MACR "A","N"
MMEM:LOAD:MACR "C","M"
OUTP:PON:STAT RCL0"#;

// Queries of all nonvolatile state; a query of what is not there is not answered.
const QUERIES: &str = r#"*PSC?;*SRE?;*ESE?;*PUD?;:OUTP:PON:STAT?;*LMC?;:MMEM:CAT?
*GMC? "A"
*GMC? "B"
*GMC? "C"
MMEM:DATA? "F"
MMEM:DATA? "G"
MMEM:DATA? "H"
MMEM:DATA? "M"
MMEM:DATA? "N"
MMEM:DATA? "S"
MMEM:DATA? "T"
*RCL 0;:VOLT?;*RCL 3;:VOLT?;*RCL 4;:VOLT?"#;

// Returns the lines of a run: two changes, each confirmed, and queries before a power loss and after it.
fn lines_of(alloc: Global, first: &str, second: &str) -> Option<Vec<u8>> {
    let mut lines = Vec::new(alloc);
    for part in [
        BEFORE, first, "*OPC?", second, "*OPC?", QUERIES, "!POWER", QUERIES,
    ] {
        add_line(alloc, &mut lines, part)?;
    }
    Some(lines)
}

// Returns the responses after those to the three `*OPC?`.
fn behind_confirmed(text: &[u8]) -> Option<&[u8]> {
    text.strip_prefix(b"1\n1\n1\n")
}

// Whether a text is some text, twice.
fn is_twice(text: &[u8]) -> bool {
    let half = text.len() / 2;
    half > 0 && text[..half] == text[half..]
}

// Whether two changes are kept entirely.
fn is_kept(alloc: Global, first: &str, second: &str) -> Option<bool> {
    let text = written_on(alloc, image(alloc, 64)?, &lines_of(alloc, first, second)?)?;
    Some(is_twice(behind_confirmed(&text)?))
}

#[test]
fn each_change_behind_each_other(rt: HostRuntime) {
    for first in CHANGES.lines() {
        for second in CHANGES.lines() {
            let kept = is_kept(rt.alloc(), first, second) == Some(true);
            holds(&rt, kept, &(first, second));
        }
    }
}
