//! Transcripts of layout changes, of which most messages are left out.
use crate::transcripts::played;
use lab_outside::Status;
use replay_run::Account;
use std::alloc::Global;
use std::test::Fail;

/// Two more layouts, all acknowledged, and no round.
const READ_AT_OLDEST_VERSION: &[u8] = b"\
    trio\n\
    bucket pics\n\
    put 1 pics a 1 97\n\
    drain 100\n\
    role 1 a gateway\n\
    role 2 b gateway\n\
    role 3 c gateway\n\
    role 4 a 1000\n\
    role 5 b 1000\n\
    role 6 c 1000\n\
    apply 1\n\
    role 4 a gateway\n\
    role 5 b gateway\n\
    role 6 c gateway\n\
    role 7 a 1000\n\
    role 8 b 1000\n\
    role 9 c 1000\n\
    apply 1\n\
    gossip 1 2\n\
    gossip 1 3\n\
    gossip 1 4\n\
    gossip 1 5\n\
    gossip 1 6\n\
    gossip 1 7\n\
    gossip 1 8\n\
    gossip 1 9\n\
    drain 100\n\
    ack 1\n\
    ack 2\n\
    ack 3\n\
    ack 4\n\
    ack 5\n\
    ack 6\n\
    ack 7\n\
    ack 8\n\
    ack 9\n\
    gossip 1 4\n\
    gossip 2 4\n\
    gossip 3 4\n\
    gossip 4 4\n\
    gossip 5 4\n\
    gossip 6 4\n\
    gossip 7 4\n\
    gossip 8 4\n\
    gossip 9 4\n\
    drain 100\n\
    sync 4\n\
    get 4 pics a\n\
    drain 100\n";

/// Its transcript, without the messages.
const OLDEST_READ_TEXT: &[u8] = b"\
    1 trio ok\n\
    2 bucket ok\n\
    3 put ok 1\n\
    4 drain ok\n\
    done 1 put 1/1\n\
    5 role ok\n\
    6 role ok\n\
    7 role ok\n\
    8 role ok\n\
    9 role ok\n\
    10 role ok\n\
    11 apply ok 2\n\
    size 3\n\
    redundancy 3\n\
    p 0 255 4 5 6\n\
    cut 4 750\n\
    c 0 255 up z:a z:b z:c\n\
    cn 4 5 6\n\
    12 role ok\n\
    13 role ok\n\
    14 role ok\n\
    15 role ok\n\
    16 role ok\n\
    17 role ok\n\
    18 apply ok 3\n\
    size 3\n\
    redundancy 3\n\
    p 0 255 7 8 9\n\
    cut 4 750\n\
    c 0 255 up z:a z:b z:c\n\
    cn 7 8 9\n\
    19 gossip ok\n\
    20 gossip ok\n\
    21 gossip ok\n\
    22 gossip ok\n\
    23 gossip ok\n\
    24 gossip ok\n\
    25 gossip ok\n\
    26 gossip ok\n\
    27 drain ok\n\
    28 ack ok 3\n\
    29 ack ok 3\n\
    30 ack ok 3\n\
    31 ack ok 3\n\
    32 ack ok 3\n\
    33 ack ok 3\n\
    34 ack ok 3\n\
    35 ack ok 3\n\
    36 ack ok 3\n\
    37 gossip ok\n\
    38 gossip ok\n\
    39 gossip ok\n\
    40 gossip ok\n\
    41 gossip ok\n\
    42 gossip ok\n\
    43 gossip ok\n\
    44 gossip ok\n\
    45 gossip ok\n\
    46 drain ok\n\
    47 sync ok idle 1 3\n\
    48 get ok 2\n\
    49 drain ok\n\
    done 2 get 1/1 1 0cc175b9c0f1b6a831c399e269772661\n\
    node 1 rows 1 blocks 0 top e08502143c1177c4ca538ffec27c9eaa1bb9e0d3d5cdecdacfaf035de8fa2ff5\n\
    node 2 rows 1 blocks 0 top e08502143c1177c4ca538ffec27c9eaa1bb9e0d3d5cdecdacfaf035de8fa2ff5\n\
    node 3 rows 1 blocks 0 top e08502143c1177c4ca538ffec27c9eaa1bb9e0d3d5cdecdacfaf035de8fa2ff5\n\
    node 4 rows 0 blocks 0 top 7e1c26a17bd3d7fa395f34897712e0533bd0d69b934e542d6a4a4fb3ce779cda\n\
    node 5 rows 0 blocks 0 top 7e1c26a17bd3d7fa395f34897712e0533bd0d69b934e542d6a4a4fb3ce779cda\n\
    node 6 rows 0 blocks 0 top 7e1c26a17bd3d7fa395f34897712e0533bd0d69b934e542d6a4a4fb3ce779cda\n\
    node 7 rows 0 blocks 0 top 7e1c26a17bd3d7fa395f34897712e0533bd0d69b934e542d6a4a4fb3ce779cda\n\
    node 8 rows 0 blocks 0 top 7e1c26a17bd3d7fa395f34897712e0533bd0d69b934e542d6a4a4fb3ce779cda\n\
    node 9 rows 0 blocks 0 top 7e1c26a17bd3d7fa395f34897712e0533bd0d69b934e542d6a4a4fb3ce779cda\n\
    end 49 2 35\n";

/// How it ends, with the messages.
const OLDEST_READ_END: &[u8] = b"\
    47 sync ok idle 1 3\n\
    48 get ok 2\n\
    sent 30 get 4 1\n\
    sent 31 get 4 2\n\
    sent 32 get 4 3\n\
    49 drain ok\n\
    got 30\n\
    sent 33 row 1 4\n\
    got 31\n\
    sent 34 row 2 4\n\
    got 32\n\
    sent 35 row 3 4\n\
    got 33\n\
    got 34\n\
    done 2 get 1/1 1 0cc175b9c0f1b6a831c399e269772661\n\
    got 35\n\
    node 1 rows 1 blocks 0 top e08502143c1177c4ca538ffec27c9eaa1bb9e0d3d5cdecdacfaf035de8fa2ff5\n\
    node 2 rows 1 blocks 0 top e08502143c1177c4ca538ffec27c9eaa1bb9e0d3d5cdecdacfaf035de8fa2ff5\n\
    node 3 rows 1 blocks 0 top e08502143c1177c4ca538ffec27c9eaa1bb9e0d3d5cdecdacfaf035de8fa2ff5\n\
    node 4 rows 0 blocks 0 top 7e1c26a17bd3d7fa395f34897712e0533bd0d69b934e542d6a4a4fb3ce779cda\n\
    node 5 rows 0 blocks 0 top 7e1c26a17bd3d7fa395f34897712e0533bd0d69b934e542d6a4a4fb3ce779cda\n\
    node 6 rows 0 blocks 0 top 7e1c26a17bd3d7fa395f34897712e0533bd0d69b934e542d6a4a4fb3ce779cda\n\
    node 7 rows 0 blocks 0 top 7e1c26a17bd3d7fa395f34897712e0533bd0d69b934e542d6a4a4fb3ce779cda\n\
    node 8 rows 0 blocks 0 top 7e1c26a17bd3d7fa395f34897712e0533bd0d69b934e542d6a4a4fb3ce779cda\n\
    node 9 rows 0 blocks 0 top 7e1c26a17bd3d7fa395f34897712e0533bd0d69b934e542d6a4a4fb3ce779cda\n\
    end 49 2 35\n";

/// A layout of other nodes, known to all, and one round.
pub const ROUND_MOVES_ONE_PARTITION: &[u8] = b"\
    trio\n\
    bucket pics\n\
    put 1 pics a 1 97\n\
    drain 100\n\
    role 4 a 1000\n\
    role 5 b 1000\n\
    role 6 c 1000\n\
    role 1 a gateway\n\
    role 2 b gateway\n\
    role 3 c gateway\n\
    apply 1\n\
    gossip 1 2\n\
    gossip 1 3\n\
    gossip 1 4\n\
    gossip 1 5\n\
    gossip 1 6\n\
    drain 100\n\
    ack 1\n\
    ack 2\n\
    ack 3\n\
    ack 4\n\
    ack 5\n\
    ack 6\n\
    gossip 1 1\n\
    gossip 2 1\n\
    gossip 3 1\n\
    gossip 4 1\n\
    gossip 5 1\n\
    gossip 6 1\n\
    drain 100\n\
    gossip 1 1\n\
    gossip 1 2\n\
    gossip 1 3\n\
    gossip 1 4\n\
    gossip 1 5\n\
    gossip 1 6\n\
    drain 100\n\
    sync 1\n\
    drain 100\n\
    sync 4\n";

/// Its transcript, without the messages.
const ONE_ROUND_TEXT: &[u8] = b"\
    1 trio ok\n\
    2 bucket ok\n\
    3 put ok 1\n\
    4 drain ok\n\
    done 1 put 1/1\n\
    5 role ok\n\
    6 role ok\n\
    7 role ok\n\
    8 role ok\n\
    9 role ok\n\
    10 role ok\n\
    11 apply ok 2\n\
    size 3\n\
    redundancy 3\n\
    p 0 255 4 5 6\n\
    cut 4 750\n\
    c 0 255 up z:a z:b z:c\n\
    cn 4 5 6\n\
    12 gossip ok\n\
    13 gossip ok\n\
    14 gossip ok\n\
    15 gossip ok\n\
    16 gossip ok\n\
    17 drain ok\n\
    18 ack ok 2\n\
    19 ack ok 2\n\
    20 ack ok 2\n\
    21 ack ok 2\n\
    22 ack ok 2\n\
    23 ack ok 2\n\
    24 gossip ok\n\
    25 gossip ok\n\
    26 gossip ok\n\
    27 gossip ok\n\
    28 gossip ok\n\
    29 gossip ok\n\
    30 drain ok\n\
    31 gossip ok\n\
    32 gossip ok\n\
    33 gossip ok\n\
    34 gossip ok\n\
    35 gossip ok\n\
    36 gossip ok\n\
    37 drain ok\n\
    38 sync ok 2\n\
    39 drain ok\n\
    synced 1 2\n\
    40 sync ok idle 1 2\n\
    node 1 rows 1 blocks 0 top e08502143c1177c4ca538ffec27c9eaa1bb9e0d3d5cdecdacfaf035de8fa2ff5\n\
    node 2 rows 1 blocks 0 top e08502143c1177c4ca538ffec27c9eaa1bb9e0d3d5cdecdacfaf035de8fa2ff5\n\
    node 3 rows 1 blocks 0 top e08502143c1177c4ca538ffec27c9eaa1bb9e0d3d5cdecdacfaf035de8fa2ff5\n\
    node 4 rows 1 blocks 0 top e08502143c1177c4ca538ffec27c9eaa1bb9e0d3d5cdecdacfaf035de8fa2ff5\n\
    node 5 rows 1 blocks 0 top e08502143c1177c4ca538ffec27c9eaa1bb9e0d3d5cdecdacfaf035de8fa2ff5\n\
    node 6 rows 1 blocks 0 top e08502143c1177c4ca538ffec27c9eaa1bb9e0d3d5cdecdacfaf035de8fa2ff5\n\
    end 40 1 41\n";

/// How it ends, with the messages.
const ONE_ROUND_END: &[u8] = b"\
    38 sync ok 2\n\
    sent 30 walk 1 4\n\
    sent 31 walk 1 5\n\
    sent 32 walk 1 6\n\
    39 drain ok\n\
    got 30\n\
    sent 33 differ 4 1\n\
    got 31\n\
    sent 34 differ 5 1\n\
    got 32\n\
    sent 35 differ 6 1\n\
    got 33\n\
    sent 36 store 1 4\n\
    got 34\n\
    sent 37 store 1 5\n\
    got 35\n\
    sent 38 store 1 6\n\
    got 36\n\
    sent 39 stored 4 1\n\
    got 37\n\
    sent 40 stored 5 1\n\
    got 38\n\
    sent 41 stored 6 1\n\
    got 39\n\
    got 40\n\
    synced 1 2\n\
    got 41\n\
    40 sync ok idle 1 2\n\
    node 1 rows 1 blocks 0 top e08502143c1177c4ca538ffec27c9eaa1bb9e0d3d5cdecdacfaf035de8fa2ff5\n\
    node 2 rows 1 blocks 0 top e08502143c1177c4ca538ffec27c9eaa1bb9e0d3d5cdecdacfaf035de8fa2ff5\n\
    node 3 rows 1 blocks 0 top e08502143c1177c4ca538ffec27c9eaa1bb9e0d3d5cdecdacfaf035de8fa2ff5\n\
    node 4 rows 1 blocks 0 top e08502143c1177c4ca538ffec27c9eaa1bb9e0d3d5cdecdacfaf035de8fa2ff5\n\
    node 5 rows 1 blocks 0 top e08502143c1177c4ca538ffec27c9eaa1bb9e0d3d5cdecdacfaf035de8fa2ff5\n\
    node 6 rows 1 blocks 0 top e08502143c1177c4ca538ffec27c9eaa1bb9e0d3d5cdecdacfaf035de8fa2ff5\n\
    end 40 1 41\n";

/// The example of a whole layout change under load.
const LAYOUT_CHANGE_UNDER_LOAD: &[u8] = b"\
    # Three nodes hold everything. One put, and all its messages.\n\
    trio\n\
    bucket photos\n\
    tick 1000\n\
    put 1 photos cat 5 1\n\
    drain 100\n\n\
    # Nodes 4 to 6 shall hold everything; nodes 1 to 3 stay as gateways for now.\n\
    role 1 a gateway\n\
    role 2 b gateway\n\
    role 3 c gateway\n\
    role 4 a 1000\n\
    role 5 b 1000\n\
    role 6 c 1000\n\
    apply 1\n\n\
    # Two puts of one key begin at nodes that don't know version 2 yet. Then the view spreads.\n\
    put 2 photos cat 3 10\n\
    put 3 photos cat 4 20\n\
    gossip 1 2\n\
    gossip 1 3\n\
    gossip 1 4\n\
    gossip 1 5\n\
    gossip 1 6\n\
    drain 11\n\
    ack 2\n\
    drain 6\n\n\
    # The first put is acknowledged by nodes 1 and 2 of the old set and 4 and 5 of the new one. All else waits.\n\
    deliver 30\n\
    deliver 31\n\
    deliver 33\n\
    deliver 34\n\
    deliver 42\n\
    deliver 43\n\
    deliver 44\n\
    deliver 45\n\
    get 6 photos cat\n\
    deliver 47\n\
    deliver 48\n\
    deliver 49\n\
    deliver 50\n\n\
    # What waited comes now, and the second put is acknowledged.\n\
    drain 100\n\
    ack 1\n\
    ack 2\n\
    ack 3\n\
    ack 4\n\
    ack 5\n\
    ack 6\n\
    sync 1\n\
    gossip 2 1\n\
    gossip 3 1\n\
    gossip 4 1\n\
    gossip 5 1\n\
    gossip 6 1\n\
    drain 100\n\
    gossip 1 2\n\
    drain 100\n\n\
    # Two of the old nodes push their rows to the new ones, while a put runs at a new node.\n\
    sync 1\n\
    sync 2\n\
    tick 500\n\
    put 4 photos cat 6 30\n\
    drain 100\n\
    get 5 photos cat\n\
    drain 100\n\
    gossip 2 1\n\
    drain 100\n\n\
    # Nodes that know of both read at version 2 and say so.\n\
    gossip 1 2\n\
    gossip 1 3\n\
    gossip 1 4\n\
    gossip 1 5\n\
    gossip 1 6\n\
    drain 100\n\
    syncack 1\n\
    syncack 2\n\
    syncack 3\n\
    syncack 4\n\
    syncack 5\n\
    clean 1\n\
    syncack 6\n\
    gossip 2 1\n\
    gossip 3 1\n\
    gossip 4 1\n\
    gossip 5 1\n\
    gossip 6 1\n\
    drain 100\n\n\
    # Version 1 goes, and with it the rows at nodes 1 to 3.\n\
    clean 1\n\
    gossip 1 2\n\
    gossip 1 3\n\
    gossip 1 4\n\
    gossip 1 5\n\
    gossip 1 6\n\
    drain 100\n\n\
    # The old nodes leave.\n\
    role 1 none\n\
    role 2 none\n\
    role 3 none\n\
    apply 4\n\
    gossip 4 1\n\
    drain 100\n\
    get 1 photos cat\n\
    get 6 photos cat\n\
    drain 100\n";

/// Its transcript, without the messages.
const CHANGE_TEXT: &[u8] = b"\
    2 trio ok\n\
    3 bucket ok\n\
    4 tick ok\n\
    5 put ok 1\n\
    6 drain ok\n\
    done 1 put 1000/1\n\
    9 role ok\n\
    10 role ok\n\
    11 role ok\n\
    12 role ok\n\
    13 role ok\n\
    14 role ok\n\
    15 apply ok 2\n\
    size 3\n\
    redundancy 3\n\
    p 0 255 4 5 6\n\
    cut 4 750\n\
    c 0 255 up z:a z:b z:c\n\
    cn 4 5 6\n\
    18 put ok 2\n\
    19 put ok 3\n\
    20 gossip ok\n\
    21 gossip ok\n\
    22 gossip ok\n\
    23 gossip ok\n\
    24 gossip ok\n\
    25 drain ok\n\
    26 ack ok 1\n\
    27 drain ok\n\
    30 deliver ok\n\
    31 deliver ok\n\
    32 deliver ok\n\
    33 deliver ok\n\
    34 deliver ok\n\
    35 deliver ok\n\
    36 deliver ok\n\
    37 deliver ok\n\
    done 2 put 1001/2\n\
    38 get ok 4\n\
    39 deliver ok\n\
    40 deliver ok\n\
    41 deliver ok\n\
    42 deliver ok\n\
    done 4 get 1001/2 3 94263e4d553bcec128704e354b659526\n\
    45 drain ok\n\
    done 3 put 1001/3\n\
    46 ack ok 2\n\
    47 ack ok 2\n\
    48 ack ok 2\n\
    49 ack ok 2\n\
    50 ack ok 2\n\
    51 ack ok 2\n\
    52 sync ok idle 1 1\n\
    53 gossip ok\n\
    54 gossip ok\n\
    55 gossip ok\n\
    56 gossip ok\n\
    57 gossip ok\n\
    58 drain ok\n\
    59 gossip ok\n\
    60 drain ok\n\
    63 sync ok 2\n\
    64 sync ok 2\n\
    65 tick ok\n\
    66 put ok 5\n\
    67 drain ok\n\
    synced 1 2\n\
    synced 2 2\n\
    done 5 put 1500/5\n\
    68 get ok 6\n\
    69 drain ok\n\
    done 6 get 1500/5 6 7d6df592ee911d375a6f13bae4c7552a\n\
    70 gossip ok\n\
    71 drain ok\n\
    74 gossip ok\n\
    75 gossip ok\n\
    76 gossip ok\n\
    77 gossip ok\n\
    78 gossip ok\n\
    79 drain ok\n\
    80 syncack ok 2\n\
    81 syncack ok 2\n\
    82 syncack ok 2\n\
    83 syncack ok 2\n\
    84 syncack ok 2\n\
    85 clean ok 1\n\
    86 syncack ok 2\n\
    87 gossip ok\n\
    88 gossip ok\n\
    89 gossip ok\n\
    90 gossip ok\n\
    91 gossip ok\n\
    92 drain ok\n\
    95 clean ok 2\n\
    96 gossip ok\n\
    97 gossip ok\n\
    98 gossip ok\n\
    99 gossip ok\n\
    100 gossip ok\n\
    101 drain ok\n\
    104 role ok\n\
    105 role ok\n\
    106 role ok\n\
    107 apply ok 3\n\
    size 3\n\
    redundancy 3\n\
    p 0 255 4 5 6\n\
    cut 4 750\n\
    c 0 255 up z:a z:b z:c\n\
    cn 4 5 6\n\
    108 gossip ok\n\
    109 drain ok\n\
    110 get refused NotMember\n\
    111 get ok 7\n\
    112 drain ok\n\
    done 7 get 1500/5 6 7d6df592ee911d375a6f13bae4c7552a\n\
    node 1 rows 0 blocks 0 top 7e1c26a17bd3d7fa395f34897712e0533bd0d69b934e542d6a4a4fb3ce779cda\n\
    node 2 rows 0 blocks 0 top 7e1c26a17bd3d7fa395f34897712e0533bd0d69b934e542d6a4a4fb3ce779cda\n\
    node 3 rows 0 blocks 0 top 7e1c26a17bd3d7fa395f34897712e0533bd0d69b934e542d6a4a4fb3ce779cda\n\
    node 4 rows 1 blocks 0 top e4ca31171f8e7d150312a021b4ff6e0727351a2f0db6b3f57aac2ef91ffeedd8\n\
    node 5 rows 1 blocks 0 top e4ca31171f8e7d150312a021b4ff6e0727351a2f0db6b3f57aac2ef91ffeedd8\n\
    node 6 rows 1 blocks 0 top e4ca31171f8e7d150312a021b4ff6e0727351a2f0db6b3f57aac2ef91ffeedd8\n\
    end 95 7 124\n";

/// The text without the lines of single messages.
pub fn without_messages(alloc: Global, text: &[u8]) -> Result<Vec<u8>, Fail> {
    let mut all = Vec::new(alloc);
    for line in text.split(|byte| *byte == b'\n') {
        if !line.starts_with(b"got ") && !line.starts_with(b"sent ") && !line.is_empty() {
            all.extend_from_slice(line)?;
            all.push(b'\n')?;
        }
    }
    Ok(all)
}

/// Schedules with their transcripts, of which the messages are left out but for the last ones.
#[test]
fn long_transcripts(rt: HostRuntime) -> Result<(), Fail> {
    let rows: [(&[u8], &[u8], &[u8]); 3] = [
        (READ_AT_OLDEST_VERSION, OLDEST_READ_TEXT, OLDEST_READ_END),
        (ROUND_MOVES_ONE_PARTITION, ONE_ROUND_TEXT, ONE_ROUND_END),
        (LAYOUT_CHANGE_UNDER_LOAD, CHANGE_TEXT, b"end 95 7 124\n"),
    ];
    for (schedule, wanted, end) in rows {
        let (status, text) = played(rt.alloc(), Account::Transcript, schedule, &[], &[])?;
        assert_eq!(rt; status, Status::Done);
        assert!(rt; text.ends_with(end));
        assert_eq!(rt; without_messages(rt.alloc(), &text)?.as_slice(), wanted);
    }
    Ok(())
}
