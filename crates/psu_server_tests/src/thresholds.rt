//! Thresholds: what just fits is accepted where memory is ample.
use crate::play::{Mismatch, plays};

const FITTING: &str = "
# While the first job is held, 1,024 changes are unflushed; then all of them are flushed.
== fitting_changes.image run
1 joins
1 fills
flusher held
flusher released
1 asks *OPC?;:SYST:ERR? -> 1;0,\"No error\"

# A transmission of 65,536 bytes in one frame, of empty units and a query.
== fitting_line.image
1 joins
1 asks *IDN?{;*65531} -> EXAMPLE,PSU4,0,1.0
1 says *SRE {0*65530}5
1 asks *SRE?;:SYST:ERR? -> 5;0,\"No error\"

# A file of 32,768 bytes, and one of a byte more.
== fitting_file.image
1 joins
1 says MMEM:DATA \"A\",#532769{x*32769}
1 asks SYST:ERR? -> -223,\"Too much data\"
1 says MMEM:DATA \"A\",#532768{x*32768}
1 asks *OPC?;:MMEM:CAT? -> 1;33792,97280,\"A,BIN,32768\"
1 asks MMEM:DATA? \"A\" -> #532768{x*32768}

# 32 macros of 1,024 bytes; there is no room for one more.
== fitting_macros.image
1 joins
1 says *DMC \"AA\",#41024{;*1024};*DMC \"AB\",#41024{;*1024};*DMC \"AC\",#41024{;*1024};*DMC \"AD\",#41024{;*1024}
1 says *DMC \"AE\",#41024{;*1024};*DMC \"AF\",#41024{;*1024};*DMC \"AG\",#41024{;*1024};*DMC \"AH\",#41024{;*1024}
1 says *DMC \"BA\",#41024{;*1024};*DMC \"BB\",#41024{;*1024};*DMC \"BC\",#41024{;*1024};*DMC \"BD\",#41024{;*1024}
1 says *DMC \"BE\",#41024{;*1024};*DMC \"BF\",#41024{;*1024};*DMC \"BG\",#41024{;*1024};*DMC \"BH\",#41024{;*1024}
1 says *DMC \"CA\",#41024{;*1024};*DMC \"CB\",#41024{;*1024};*DMC \"CC\",#41024{;*1024};*DMC \"CD\",#41024{;*1024}
1 says *DMC \"CE\",#41024{;*1024};*DMC \"CF\",#41024{;*1024};*DMC \"CG\",#41024{;*1024};*DMC \"CH\",#41024{;*1024}
1 says *DMC \"DA\",#41024{;*1024};*DMC \"DB\",#41024{;*1024};*DMC \"DC\",#41024{;*1024};*DMC \"DD\",#41024{;*1024}
1 says *DMC \"DE\",#41024{;*1024};*DMC \"DF\",#41024{;*1024};*DMC \"DG\",#41024{;*1024};*DMC \"DH\",#41024{;*1024}
1 asks *OPC?;*LMC?;:SYST:ERR? -> 1;\
\"AA\",\"AB\",\"AC\",\"AD\",\"AE\",\"AF\",\"AG\",\"AH\",\"BA\",\"BB\",\"BC\",\"BD\",\"BE\",\"BF\",\"BG\",\"BH\",\
\"CA\",\"CB\",\"CC\",\"CD\",\"CE\",\"CF\",\"CG\",\"CH\",\"DA\",\"DB\",\"DC\",\"DD\",\"DE\",\"DF\",\"DG\",\"DH\";\
0,\"No error\"
1 asks *GMC? \"DH\";*EMC 1;DH;*IDN? -> #41024{;*1024};EXAMPLE,PSU4,0,1.0
1 asks *DMC \"EA\",#10;:SYST:ERR? -> -254,\"Media full\"

# A wait lasts while 1,000 queries of another session are answered.
== fitting_wait.image run
1 joins
2 joins
1 says *SAV 1;*OPC?
flusher held
10 times 2 works
1 silent
flusher released
1 hears 1

# 1,000 waits, a hundred in each message.
== fitting_waits.image
1 joins
10 times 1 asks {*SAV 0;*OPC?;*100}*IDN? -> {1;*100}EXAMPLE,PSU4,0,1.0
";

#[test]
fn what_fits_is_accepted(rt: HostRuntime) -> Result<(), Mismatch> {
    plays(rt, rt.alloc(), FITTING)
}
