//! What no clause says of a server with layout changes to come: that an answer comes with ample memory, and the numbers of
//! messages, rows and blocks that were worked out by hand from the steps of a change (docs/FORMATS.md).
use lab_outside::Status;
use std::alloc::Global;
use std::test::Fail;
use test_links::{ONE_CONNECTION, Session, THREE_NODES, recorded, served_with};

/// An object is put and read.
pub const PUT_AND_GET: &[u8] = b"\
    PUT /pics/a.txt HTTP/1.1\r\n\
    Content-Length: 3\r\n\r\n\
    abc\
    GET /pics/a.txt HTTP/1.1\r\n\r\n";

/// The answers to both.
pub const PUT_AND_GET_ANSWERS: &[u8] = b"\
    HTTP/1.1 200 OK\r\n\
    Date: Tue, 14 Nov 2023 22:13:20 GMT\r\n\
    Content-Length: 0\r\n\
    ETag: \"900150983cd24fb0d6963f7d28e17f72\"\r\n\r\n\
    HTTP/1.1 200 OK\r\n\
    Date: Tue, 14 Nov 2023 22:13:20 GMT\r\n\
    Content-Length: 3\r\n\
    ETag: \"900150983cd24fb0d6963f7d28e17f72\"\r\n\
    Last-Modified: Tue, 14 Nov 2023 22:13:20 GMT\r\n\
    Content-Type: application/octet-stream\r\n\
    Accept-Ranges: bytes\r\n\r\n\
    abc";

/// A change to three other nodes after one request.
pub const TO_NEW_NODES: &[u8] = b"\
    [[change]]\n\
    after = 1\n\
    [[change.node]]\n\
    id = 4\n\
    zone = 'a'\n\
    capacity = 1000\n\
    [[change.node]]\n\
    id = 5\n\
    zone = 'b'\n\
    capacity = 1000\n\
    [[change.node]]\n\
    id = 6\n\
    zone = 'c'\n\
    capacity = 1000\n";

/// A change to two nodes after one request.
const TO_TWO_NODES: &[u8] = b"\
    [[change]]\n\
    after = 1\n\
    [[change.node]]\n\
    id = 4\n\
    zone = 'a'\n\
    capacity = 1000\n\
    [[change.node]]\n\
    id = 5\n\
    zone = 'b'\n\
    capacity = 1000\n";

/// The same after two requests.
const TO_NEW_NODES_LATER: &[u8] = b"\
    [[change]]\n\
    after = 2\n\
    [[change.node]]\n\
    id = 4\n\
    zone = 'a'\n\
    capacity = 1000\n\
    [[change.node]]\n\
    id = 5\n\
    zone = 'b'\n\
    capacity = 1000\n\
    [[change.node]]\n\
    id = 6\n\
    zone = 'c'\n\
    capacity = 1000\n";

/// The same after more requests than there are.
const TO_NEW_NODES_NEVER: &[u8] = b"\
    [[change]]\n\
    after = 3\n\
    [[change.node]]\n\
    id = 4\n\
    zone = 'a'\n\
    capacity = 1000\n\
    [[change.node]]\n\
    id = 5\n\
    zone = 'b'\n\
    capacity = 1000\n\
    [[change.node]]\n\
    id = 6\n\
    zone = 'c'\n\
    capacity = 1000\n";

/// A change to the nodes of the configuration after one request.
const TO_THE_SAME: &[u8] = b"\
    [[change]]\n\
    after = 1\n\
    [[change.node]]\n\
    id = 1\n\
    zone = 'a'\n\
    capacity = 1000\n\
    [[change.node]]\n\
    id = 2\n\
    zone = 'b'\n\
    capacity = 1000\n\
    [[change.node]]\n\
    id = 3\n\
    zone = 'c'\n\
    capacity = 1000\n";

/// And back to them after two.
const BACK: &[u8] = b"\
    [[change]]\n\
    after = 2\n\
    [[change.node]]\n\
    id = 1\n\
    zone = 'a'\n\
    capacity = 1000\n\
    [[change.node]]\n\
    id = 2\n\
    zone = 'b'\n\
    capacity = 1000\n\
    [[change.node]]\n\
    id = 3\n\
    zone = 'c'\n\
    capacity = 1000\n";

/// Three nodes with these changes to come.
pub fn configuration(alloc: Global, changes: &[&[u8]]) -> Result<Vec<u8>, Fail> {
    let mut text = THREE_NODES.to_vec(alloc)?;
    for change in changes {
        text.extend_from_slice(change)?;
    }
    Ok(text)
}

/// A server of one connection that has these bytes, over three nodes with these changes to come.
fn served(alloc: Global, changes: &[&[u8]], bytes: &[u8]) -> Result<Session, Fail> {
    let mut link = recorded(alloc, bytes, 65_536)?;
    let end = served_with(
        alloc,
        &configuration(alloc, changes)?,
        ONE_CONNECTION,
        &mut link,
    )?;
    Ok(Session {
        status: end.status,
        output: end.output,
        written: link.written().to_vec(alloc)?,
    })
}

/// The lines of an output, each without what stands behind its first words.
fn begins_so(output: &[u8], starts: &[&[u8]]) -> bool {
    let mut rest = output;
    for start in starts {
        if !rest.starts_with(start) {
            return false;
        }
        let Some(end) = rest.iter().position(|byte| *byte == b'\n') else {
            return false;
        };
        rest = &rest[end + 1..];
    }
    rest.is_empty()
}

/// 12 messages for the put; 5 views of the first node to five others; 30 to spread what each of six knows, three times; for
/// each of nine pairs of an older and a newer node a walk, a difference, a push and its confirmation; 6 for the get.
#[test]
fn serve_moves_to_new_nodes(rt: HostRuntime) -> Result<(), Fail> {
    let end = served(rt.alloc(), &[TO_NEW_NODES], PUT_AND_GET)?;
    assert_eq!(rt; end.status, Status::Done);
    assert_eq!(rt; end.written.as_slice(), PUT_AND_GET_ANSWERS);
    assert!(rt;
        begins_so(
            &end.output,
            &[
                b"p 0 255 1 2 3",
                b"p 0 255 4 5 6",
                b"node 1 rows 0 blocks 0 top ",
                b"node 2 rows 0 blocks 0 top ",
                b"node 3 rows 0 blocks 0 top ",
                b"node 4 rows 1 blocks 0 top ",
                b"node 5 rows 1 blocks 0 top ",
                b"node 6 rows 1 blocks 0 top ",
                b"end 1 2 89\n",
            ]
        )
    );
    Ok(())
}

/// A layout with too few nodes is refused before anything is served.
#[test]
fn change_with_two_nodes(rt: HostRuntime) -> Result<(), Fail> {
    let end = served(rt.alloc(), &[TO_TWO_NODES], PUT_AND_GET)?;
    assert_eq!(rt; end.status, Status::Refused);
    assert_eq!(rt; end.output.as_slice(), b"too few nodes 2\n".as_slice());
    assert!(rt; end.written.is_empty());
    Ok(())
}

/// The three nodes of the configuration, each with the object's row.
const THREE_WITH_ROWS: [&[u8]; 3] = [
    b"node 1 rows 1 blocks 0 top ",
    b"node 2 rows 1 blocks 0 top ",
    b"node 3 rows 1 blocks 0 top ",
];

/// The lines of a put and a get with these changes to come: their first lines, and then what the output's lines begin with.
fn lines_are(alloc: Global, changes: &[&[u8]], starts: &[&[u8]]) -> Result<bool, Fail> {
    let end = served(alloc, changes, PUT_AND_GET)?;
    Ok(
        end.status == Status::Done
            && end.written.as_slice() == PUT_AND_GET_ANSWERS
            && begins_so(&end.output, starts),
    )
}

/// A change behind the last request is made too, with as many messages.
#[test]
fn change_behind_the_last_request(rt: HostRuntime) -> Result<(), Fail> {
    assert!(rt;
        lines_are(
            rt.alloc(),
            &[TO_NEW_NODES_LATER],
            &[
                b"p 0 255 1 2 3",
                b"p 0 255 4 5 6",
                b"node 1 rows 0 blocks 0 top ",
                b"node 2 rows 0 blocks 0 top ",
                b"node 3 rows 0 blocks 0 top ",
                b"node 4 rows 1 blocks 0 top ",
                b"node 5 rows 1 blocks 0 top ",
                b"node 6 rows 1 blocks 0 top ",
                b"end 1 2 89\n",
            ]
        )?
    );
    Ok(())
}

/// A change whose count isn't reached shows nothing: 12 messages for the put, and 6 for the get.
#[test]
fn change_that_never_comes(rt: HostRuntime) -> Result<(), Fail> {
    let [one, two, three] = THREE_WITH_ROWS;
    assert!(rt;
        lines_are(
            rt.alloc(),
            &[TO_NEW_NODES_NEVER],
            &[b"p 0 255 1 2 3", one, two, three, b"end 1 2 18\n"]
        )?
    );
    Ok(())
}

/// A new version with the same sets: 2 views of the first node; 4 to spread what each knows, three times; six walks, each
/// answered by the same.
#[test]
fn change_to_the_same_nodes(rt: HostRuntime) -> Result<(), Fail> {
    let [one, two, three] = THREE_WITH_ROWS;
    assert!(rt;
        lines_are(
            rt.alloc(),
            &[TO_THE_SAME],
            &[
                b"p 0 255 1 2 3",
                b"p 0 255 1 2 3",
                one,
                two,
                three,
                b"end 1 2 44\n",
            ]
        )?
    );
    Ok(())
}

/// Two changes, with 71 messages each: nodes that left come back.
#[test]
fn changes_there_and_back(rt: HostRuntime) -> Result<(), Fail> {
    let [one, two, three] = THREE_WITH_ROWS;
    assert!(rt;
        lines_are(
            rt.alloc(),
            &[TO_NEW_NODES, BACK],
            &[
                b"p 0 255 1 2 3",
                b"p 0 255 4 5 6",
                b"p 0 255 1 2 3",
                one,
                two,
                three,
                b"node 4 rows 0 blocks 0 top ",
                b"node 5 rows 0 blocks 0 top ",
                b"node 6 rows 0 blocks 0 top ",
                b"end 1 2 160\n",
            ]
        )?
    );
    Ok(())
}

/// A gateway of the configuration.
const GATEWAY: &[u8] = b"\
    [[node]]\n\
    id = 7\n\
    zone = 'd'\n\
    gateway = true\n";

/// The same gateway, in the change before it.
const GATEWAY_STAYS: &[u8] = b"\
    [[change.node]]\n\
    id = 7\n\
    zone = 'd'\n\
    gateway = true\n";

/// With a gateway in both layouts seven nodes take part: 6 views of the first node, and 36 to spread what each of seven knows,
/// three times; the nine pairs push as without it, and it holds no row.
#[test]
fn gateway_in_both_layouts(rt: HostRuntime) -> Result<(), Fail> {
    assert!(rt;
        lines_are(
            rt.alloc(),
            &[GATEWAY, TO_NEW_NODES, GATEWAY_STAYS],
            &[
                b"p 0 255 1 2 3",
                b"p 0 255 4 5 6",
                b"node 1 rows 0 blocks 0 top ",
                b"node 2 rows 0 blocks 0 top ",
                b"node 3 rows 0 blocks 0 top ",
                b"node 4 rows 1 blocks 0 top ",
                b"node 5 rows 1 blocks 0 top ",
                b"node 6 rows 1 blocks 0 top ",
                b"node 7 rows 0 blocks 0 top ",
                b"end 1 2 96\n",
            ]
        )?
    );
    Ok(())
}

/// An object of one block, all of whose bytes are the same, is put.
fn push_put(bytes: &mut Vec<u8>, byte: u8) -> Result<(), Fail> {
    bytes.extend_from_slice(b"PUT /pics/a.txt HTTP/1.1\r\nContent-Length: 4000\r\n\r\n")?;
    for _ in 0..4000 {
        bytes.push(byte)?;
    }
    Ok(())
}

/// What is put in blocks moves with its rows; the blocks of nodes that left stay there.
#[test]
fn blocks_of_nodes_that_leave(rt: HostRuntime) -> Result<(), Fail> {
    let mut bytes = Vec::new(rt.alloc());
    push_put(&mut bytes, b'x')?;
    let end = served(rt.alloc(), &[TO_NEW_NODES], &bytes)?;
    assert_eq!(rt; end.status, Status::Done);
    assert!(rt;
        begins_so(
            &end.output,
            &[
                b"p 0 255 1 2 3",
                b"p 0 255 4 5 6",
                b"node 1 rows 0 blocks 1 top ",
                b"node 2 rows 0 blocks 1 top ",
                b"node 3 rows 0 blocks 1 top ",
                b"node 4 rows 3 blocks 1 top ",
                b"node 5 rows 3 blocks 1 top ",
                b"node 6 rows 3 blocks 1 top ",
                b"end 1 1 ",
            ]
        )
    );
    Ok(())
}

/// The block of an object that was overwritten waits for its ten minutes where it lies: nodes that left keep both blocks, and
/// to the others come the rows of both versions, with the block of the second alone.
#[test]
fn overwritten_block_stays(rt: HostRuntime) -> Result<(), Fail> {
    let mut bytes = Vec::new(rt.alloc());
    push_put(&mut bytes, b'x')?;
    push_put(&mut bytes, b'y')?;
    let end = served(rt.alloc(), &[TO_NEW_NODES_LATER], &bytes)?;
    assert_eq!(rt; end.status, Status::Done);
    assert!(rt;
        begins_so(
            &end.output,
            &[
                b"p 0 255 1 2 3",
                b"p 0 255 4 5 6",
                b"node 1 rows 0 blocks 2 top ",
                b"node 2 rows 0 blocks 2 top ",
                b"node 3 rows 0 blocks 2 top ",
                b"node 4 rows 5 blocks 1 top ",
                b"node 5 rows 5 blocks 1 top ",
                b"node 6 rows 5 blocks 1 top ",
                b"end 1 2 ",
            ]
        )
    );
    Ok(())
}

/// Bad fields of changes, and those that come before or behind them.
#[test]
fn changes_that_are_refused(rt: HostRuntime) -> Result<(), Fail> {
    let rows: [(&[u8], &[u8]); 8] = [
        (b"[change]\n", b"bad field change\n"),
        (b"[[change]]\n", b"bad field after\n"),
        (b"[[change]]\nafter = 0\n", b"bad field after\n"),
        (b"[[change]]\nafter = 1000001\n", b"bad field after\n"),
        (b"[[change]]\nafter = '1'\n", b"bad field after\n"),
        (
            b"[[change]]\nafter = 1\nredundancy = 4\n",
            b"bad field redundancy\n",
        ),
        (b"[[change]]\nafter = 1\n", b"bad field node\n"),
        (
            b"[[change]]\nafter = 1\n[[change.node]]\nid = 17\n",
            b"bad field id\n",
        ),
    ];
    for (change, line) in rows {
        let end = served(rt.alloc(), &[change], PUT_AND_GET)?;
        assert_eq!(rt; end.status, Status::Refused);
        assert_eq!(rt; end.output.as_slice(), line);
    }
    let twice = served(rt.alloc(), &[TO_NEW_NODES, TO_THE_SAME], PUT_AND_GET)?;
    assert_eq!(rt; twice.output.as_slice(), b"bad field after\n".as_slice());
    Ok(())
}
