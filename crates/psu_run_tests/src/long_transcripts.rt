//! Transcripts that a document can't show: with parts that are repeated, with bytes that can't be seen, and on the
//! smallest image. All others are examples of psu_guide.
use crate::images::written;
use crate::transcripts::{play, play_on};

// Tabs, a carriage return before the end of a line, and a byte of 127, which is no character of a header.
const CONTROL_CHARACTERS: &str = "
Empty lines and units have no effect.
> 
>  ;\t;
> *PSC?
< 1

White space before the header, between it and its parameter, and at the end.
>  *SRE \t 16 ;*SRE?\r
< 16

> *SRE 1\u{7f};*ESR?;*SRE?
< 160;0
";

#[test]
fn control_characters(rt: HostRuntime) {
    play(&rt, rt.alloc(), CONTROL_CHARACTERS);
}

// Headers are read without regard to case, and the last line may lack its end.
#[test]
fn a_line_without_its_end(rt: HostRuntime) {
    let got = written(rt.alloc(), b"*idn?").expect(&rt, "the run ends well");
    assert!(rt; got.as_slice() == b"EXAMPLE,PSU4,0,1.0\n".as_slice());
}

const REPEATED_PARTS: &str = r#"
A line has 65,536 bytes at most.
> {;*65537}
> *ESR?
< 144

> {;*65536}
> *ESR?
< 128

Contents of 256 pages fit, and a page more does not. 66 pages three times, and 58: all of them.
> MMEM:DATA "A",#532768{b*32768}
> MMEM:DATA "B",#532768{b*32768}
> MMEM:DATA "C",#532768{b*32768}
> MMEM:DATA "D",#529183{b*29183}
> MMEM:DATA "E",#10
> SYST:ERR?
< -254,"Media full"
> MMEM:CAT?
< 131072,0,"A,BIN,32768","B,BIN,32768","C,BIN,32768","D,BIN,29183"
A page is left, and a file takes two.
> MMEM:DATA "D",#528671{b*28671}
> MMEM:DATA "E",#10
> SYST:ERR?
< -254,"Media full"
> MMEM:CAT?
< 130560,512,"A,BIN,32768","B,BIN,32768","C,BIN,32768","D,BIN,28671"
Two pages are left.
> MMEM:DATA "D",#528159{b*28159}
> MMEM:DATA "E",#10
> SYST:ERR?
< 0,"No error"
> MMEM:CAT?
< 131072,0,"A,BIN,32768","B,BIN,32768","C,BIN,32768","D,BIN,28159","E,BIN,0"
> *OPC?
< 1

A macro's body has 1,024 bytes at most; that is checked before the label.
> *DMC "M",#41024{;*1024};*LMC?;:SYST:ERR?
< "M";0,"No error"

> *DMC "M",#41025{;*1025};*LMC?;:SYST:ERR?
< "";-275,"Macro definition too long"

> *DMC "M",#41024{;*1024};:MMEM:STOR:MACR "M","F";:MMEM:LOAD:MACR "N","F";*LMC?;:SYST:ERR?
< "M","N";0,"No error"

An expansion of 65,536 bytes is executed, here as one undefined header; a longer one is -223.
> *DMC "M",#41024{$1*512};*EMC 1
> M {x*128}
> SYST:ERR?
< -113,"Undefined header"

> *DMC "M",#41024{$1*512};*EMC 1
> M {x*129}
> SYST:ERR?
< -223,"Too much data"

> *DMC "M",#41024{$1*512};*EMC 1
> M {x*60000}
> SYST:ERR?
< -223,"Too much data"

With 1,023 changes that are not flushed the second change of an expansion waits for a flush, and is then executed.
> *DMC "S",#219VOLT?;*SAV 1;*SAV 2;*EMC 1
> {*SAV 0\n*1022}VOLT 7;S;VOLT?
< 7.000;7.000
> !POWER
> *RCL 1;VOLT?
< 7.000
> *RCL 2;VOLT?
< 0.000

What fits is accepted where memory is ample: 1,024 changes before one flush, 1,000 waits one after another, a line of 65,536 bytes, and 32
macros of 1,024 bytes.
> {*SAV 0\n*1024}*OPC?;:SYST:ERR?
< 1;0,"No error"

> {*SAV 0;*OPC?\n*1000}*IDN?
< {1\n*1000}EXAMPLE,PSU4,0,1.0

> *IDN?{;*65531}
< EXAMPLE,PSU4,0,1.0

> *DMC "AA",#41024{;*1024}
> *DMC "AB",#41024{;*1024}
> *DMC "AC",#41024{;*1024}
> *DMC "AD",#41024{;*1024}
> *DMC "AE",#41024{;*1024}
> *DMC "AF",#41024{;*1024}
> *DMC "AG",#41024{;*1024}
> *DMC "AH",#41024{;*1024}
> *DMC "BA",#41024{;*1024}
> *DMC "BB",#41024{;*1024}
> *DMC "BC",#41024{;*1024}
> *DMC "BD",#41024{;*1024}
> *DMC "BE",#41024{;*1024}
> *DMC "BF",#41024{;*1024}
> *DMC "BG",#41024{;*1024}
> *DMC "BH",#41024{;*1024}
> *DMC "CA",#41024{;*1024}
> *DMC "CB",#41024{;*1024}
> *DMC "CC",#41024{;*1024}
> *DMC "CD",#41024{;*1024}
> *DMC "CE",#41024{;*1024}
> *DMC "CF",#41024{;*1024}
> *DMC "CG",#41024{;*1024}
> *DMC "CH",#41024{;*1024}
> *DMC "DA",#41024{;*1024}
> *DMC "DB",#41024{;*1024}
> *DMC "DC",#41024{;*1024}
> *DMC "DD",#41024{;*1024}
> *DMC "DE",#41024{;*1024}
> *DMC "DF",#41024{;*1024}
> *DMC "DG",#41024{;*1024}
> *DMC "DH",#41024{;*1024}
> *OPC?;*LMC?;:SYST:ERR?
< 1;"AA","AB","AC","AD","AE","AF","AG","AH","BA","BB","BC","BD","BE","BF","BG","BH","CA","CB","CC","CD","CE","CF","CG","CH","DA","DB","DC","DD","DE","DF","DG","DH";0,"No error"
"#;

#[test]
fn repeated_parts(rt: HostRuntime) {
    play(&rt, rt.alloc(), REPEATED_PARTS);
}

const ON_FOUR_PAGES: &str = r#"
Two registers fill an image of four pages; one that holds the settings of `*RST` again takes none.
> VOLT 1
> *SAV 0
> *SAV 1
> *SAV 2
> SYST:ERR?
< -254,"Media full"
> VOLT 0
> *SAV 0
> VOLT 1
> *SAV 2
> SYST:ERR?
< 0,"No error"
> VOLT 3;*RCL 2;VOLT?;*RCL 1;VOLT?;*RCL 0;VOLT?
< 1.000;1.000;0.000

What does not fit is refused and leaves all as it was; 511 bytes and the type are one page of value.
> MMEM:DATA "A",#11y;DATA "B",#3511{x*511};COPY "A","C";DEL "C";:SYST:ERR?;:MMEM:CAT?
< -254,"Media full";2048,0,"A,BIN,1","B,BIN,511"

> MMEM:DATA "A",#11y;DATA "B",#3512{x*512};COPY "A","C";DEL "C";:SYST:ERR?;:MMEM:CAT?
< -254,"Media full";1024,1024,"A,BIN,1"

> MMEM:DATA "A",#11y;DATA "B",#11z;DATA "B",#3512{x*512};COPY "A","C";DEL "C";:SYST:ERR?;:MMEM:CAT?
< -254,"Media full";2048,0,"A,BIN,1","B,BIN,1"
"#;

#[test]
fn on_four_pages(rt: HostRuntime) {
    play_on(&rt, rt.alloc(), 4, ON_FOUR_PAGES);
}
