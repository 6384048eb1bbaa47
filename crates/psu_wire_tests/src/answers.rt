//! A command, its response, and the sizes of responses.
use crate::conversations::converse;

const A_COMMAND: &str = "
async 'HS 11 00*4 01 -> async 'HS 12
sync 'HS 07 00 ff*3 00*8 06 '*IDN? 0a -> execute 4294967040/0 '*IDN? 0a
answer 4294967040/0 'EXAMPLE,PSU4,0,1.0 0a -> 'HS 07 00 ff*3 00*8 13 'EXAMPLE,PSU4,0,1.0 0a
async 'HS 15 00 -> status no
async 'HS 15 01 -> status yes
async 'HS 15 02 -> status no
";

#[test]
fn a_command_and_a_status_query(rt: HostRuntime) {
    converse(&rt, rt.alloc(), A_COMMAND);
}

// Each maximum message size of a client is answered by the server's own, 65,536 bytes, and bounds the frames of its
// responses: each but the last is Data, of the maximum length, and the last a DataEnd. The MessageID distinguishes the
// sizes; the last session reports none.
const SIZES: &str = "
async 'HS 11 00*4 01 -> async 'HS 12
async 'HS 0f 00*12 08 00*8 -> async 'HS 10 00*12 08 00*5 01 00*2
answer 2/0 'xxx -> 'HS 06 00*4 02 00*7 01 'x 'HS 06 00*4 02 00*7 01 'x 'HS 07 00*4 02 00*7 01 'x
answer 2/0 -> 'HS 07 00*4 02 00*8

async 'HS 11 00*4 01 -> async 'HS 12
async 'HS 0f 00*12 08 00*7 01 -> async 'HS 10 00*12 08 00*5 01 00*2
answer 3/0 'xxx -> 'HS 06 00*4 03 00*7 01 'x 'HS 06 00*4 03 00*7 01 'x 'HS 07 00*4 03 00*7 01 'x
answer 3/0 -> 'HS 07 00*4 03 00*8

async 'HS 11 00*4 01 -> async 'HS 12
async 'HS 0f 00*12 08 00*7 10 -> async 'HS 10 00*12 08 00*5 01 00*2
answer 4/0 'xxx -> 'HS 06 00*4 04 00*7 01 'x 'HS 06 00*4 04 00*7 01 'x 'HS 07 00*4 04 00*7 01 'x
answer 4/0 -> 'HS 07 00*4 04 00*8

async 'HS 11 00*4 01 -> async 'HS 12
async 'HS 0f 00*12 08 00*7 11 -> async 'HS 10 00*12 08 00*5 01 00*2
answer 5/0 'xxx -> 'HS 06 00*4 05 00*7 01 'x 'HS 06 00*4 05 00*7 01 'x 'HS 07 00*4 05 00*7 01 'x
answer 5/0 -> 'HS 07 00*4 05 00*8

async 'HS 11 00*4 01 -> async 'HS 12
async 'HS 0f 00*12 08 00*7 14 -> async 'HS 10 00*12 08 00*5 01 00*2
answer 6/0 78*19 -> 'HS 06 00*4 06 00*7 04 'xxxx 'HS 06 00*4 06 00*7 04 'xxxx 'HS 06 00*4 06 00*7 04 'xxxx 'HS 06 00*4 06 00*7 04 'xxxx 'HS 07 00*4 06 00*7 03 'xxx
answer 6/0 'xxxxxxxx -> 'HS 06 00*4 06 00*7 04 'xxxx 'HS 07 00*4 06 00*7 04 'xxxx
answer 6/0 -> 'HS 07 00*4 06 00*8

async 'HS 11 00*4 01 -> async 'HS 12
async 'HS 0f 00*12 08 00*5 01 00*2 -> async 'HS 10 00*12 08 00*5 01 00*2
answer 7/0 78*65521 -> 'HS 06 00*4 07 00*6 ff f0 78*65520 'HS 07 00*4 07 00*7 01 'x
answer 7/0 -> 'HS 07 00*4 07 00*8

async 'HS 11 00*4 01 -> async 'HS 12
async 'HS 0f 00*12 08 ff*8 -> async 'HS 10 00*12 08 00*5 01 00*2
answer 8/0 78*65521 -> 'HS 06 00*4 08 00*6 ff f0 78*65520 'HS 07 00*4 08 00*7 01 'x
answer 8/0 -> 'HS 07 00*4 08 00*8

async 'HS 11 00*4 01 -> async 'HS 12
answer 9/0 78*65521 -> 'HS 06 00*4 09 00*6 ff f0 78*65520 'HS 07 00*4 09 00*7 01 'x
";

#[test]
fn answers_by_the_size_of_the_client(rt: HostRuntime) {
    converse(&rt, rt.alloc(), SIZES);
}
