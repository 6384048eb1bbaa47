//! Transmissions: how they are assembled, what of them is executed, and what of them waits.
use crate::play::{Mismatch, plays};

const WHOLE: &str = "
# Data with `*ID` and DataEnd with `N?`, and the answer under the identifier of the latter.
== transmissions.image
1 joins
1 sends 'HS 06 00 00*3 02 00*7 03 '*ID
1 sends 'HS 07 00 00*3 04 00*7 02 'N?
1 gets 'HS 07 00 00*3 04 00*7 13 'EXAMPLE,PSU4,0,1.0 0a

# Two messages in one transmission have an answer each.
1 asks *SRE?;*ESE?\\nVOLT 1\\n*PSC?\\n -> 0;0
1 hears 1

# A client that continues before it reads finds all answers in order.
1 says *SRE?
1 says *PSC?
1 says *IDN?
1 hears 0
1 hears 1
1 hears EXAMPLE,PSU4,0,1.0

# A transmission of 65,536 bytes is executed, and one of a byte more, of semicolons and a question, is not.
== too_long.image
1 joins
1 sends 'HS 06 00 00*4 00*6 ff fb
1 sends 3b*65531
1 asks *IDN? -> EXAMPLE,PSU4,0,1.0
1 sends 'HS 06 00 00*4 00*6 ff fb
1 sends 3b*65531
1 says *IDN?;
1 asks SYST:ERR? -> -223,\"Too much data\"

# A Trigger is ignored.
1 sends 'HS 0c 00 00*12
1 asks SYST:ERR? -> -211,\"Trigger ignored\"
1 asks SYST:ERR? -> 0,\"No error\"

# A payload that is too long is skipped, and the pieces round it belong together.
1 sends 'HS 06 00 00*4 00*7 03 '*ID
1 sends 'HS 06 00 00*4 00*5 01 00 01
1 sends 78*65537
1 gets 'HS 03 04 00*12
1 asks N? -> EXAMPLE,PSU4,0,1.0
";

#[test]
fn transmissions_are_put_together(rt: HostRuntime) -> Result<(), Mismatch> {
    plays(rt, rt.alloc(), WHOLE)
}

const EXPANSIONS: &str = "
# Expansions in a transmission, one of which waits for the flusher.
== macros.image
1 joins
1 says *DMC \"SETA\",#17VOLT $1;*DMC \"KEEP\",#212*SAV 1;*OPC?
1 asks *EMC 1;SETA 3;VOLT? -> 3.000
1 asks *PSC?;KEEP;*SRE?\\nSETA 4;VOLT? -> 1;1;0
1 hears 4.000

# No macro is called inside another.
== macro_inside.image
1 joins
1 says *DMC \"INNER\",#16VOLT 1;*DMC \"OUTER\",#15INNER
1 says *EMC 1;OUTER
1 asks SYST:ERR?;:VOLT? -> -276,\"Macro recursion error\";0.000

# The expansion in the place of the first unit waits for the flusher; its message is answered in one.
== macro_waits.image run
1 joins
1 says *DMC \"KEEP\",#218*PSC?;*SAV 1;*OPC?;*EMC 1
1 says KEEP;*SRE?
1 silent
flusher released
1 hears 1;1;0
";

#[test]
fn macros_are_expanded(rt: HostRuntime) -> Result<(), Mismatch> {
    plays(rt, rt.alloc(), EXPANSIONS)
}

const ROOM: &str = "
# One save more than may be unflushed waits for room, and so does what follows it; another may ask, and save no more. Once there is room they continue.
== room.image run
1 joins
2 joins
1 fills
1 says *SAV 2;*SRE?
1 says *OPC?
1 silent
2 works
2 says *SAV 3;*SRE?
2 silent
flusher released
1 hears 0
1 hears 1
2 hears 0
";

#[test]
fn saves_wait_for_room(rt: HostRuntime) -> Result<(), Mismatch> {
    plays(rt, rt.alloc(), ROOM)
}
