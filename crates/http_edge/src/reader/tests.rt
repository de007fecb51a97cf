use crate::{EdgeFault, Method, Reader, Request, read_request};
use crypto_text::{Bytes, Ids, Text};
use outside::MemSource;
use std::alloc::{AllocError, Global};
use std::test::Fail;

fn source_of(
    alloc: Global,
    bytes: &[u8],
    most: usize,
    fail_at: &[u64],
) -> Result<MemSource, AllocError> {
    Ok(MemSource::new(
        Bytes::of(alloc, bytes)?,
        most.max(1),
        Ids::of(alloc, fail_at)?,
    ))
}

// The lengths of the bodies of one request after another, until there is none.
fn lengths_of(alloc: Global, source: &mut MemSource) -> Result<Vec<usize>, EdgeFault> {
    let mut reader = Reader::new(alloc)?;
    let mut lengths = Vec::new(alloc);
    for _ in 0..1000 {
        match read_request(alloc, &mut reader, source)? {
            None => break,
            Some(request) => lengths.push(request.body.items().len())?,
        }
    }
    Ok(lengths)
}

fn fault_of(alloc: Global, bytes: &[u8], most: usize) -> Result<Option<EdgeFault>, AllocError> {
    Ok(lengths_of(alloc, &mut source_of(alloc, bytes, most, &[])?).err())
}

fn text_of(text: &Option<Text>) -> &str {
    match text {
        Some(text) => text.as_str(),
        None => "none",
    }
}

#[test]
fn pieces_of_any_length_give_the_same_requests(rt: HostRuntime) -> Result<(), Fail> {
    let alloc = rt.alloc();
    let bytes =
        b"GET / HTTP/1.1\r\nHost: a\r\n\r\nPOST /b HTTP/1.0\ncontent-length: 3\n\nabcGET /c HTTP/1.1\n\n";
    for most in [1, 2, 7, 50, 4096] {
        let lengths = lengths_of(alloc, &mut source_of(alloc, bytes, most, &[])?)?;
        assert_eq!(rt; lengths.as_slice(), [0, 3, 0].as_slice(), "{most}");
    }
    Ok(())
}

fn first_of(alloc: Global, bytes: &[u8]) -> Result<Option<Request>, EdgeFault> {
    read_request(
        alloc,
        &mut Reader::new(alloc)?,
        &mut source_of(alloc, bytes, 7, &[])?,
    )
}

fn is_the_whole_form(request: &Request) -> bool {
    request.method == Method::Post
        && request.path.as_str() == "/a/b"
        && request.query.as_str() == "c=d?e"
        && request.has_query
        && text_of(&request.host) == "a.b"
        && text_of(&request.cookie) == "a=1; b=2"
        && text_of(&request.origin) == "o"
        && text_of(&request.referer) == "/x"
        && text_of(&request.csrf) == "c"
        && text_of(&request.proto) == "https"
        && request.form
        && request.body.items() == b"a=b".as_slice()
        && request.keep
}

#[test]
fn a_request_takes_the_first_of_each_field(rt: HostRuntime) -> Result<(), Fail> {
    let bytes =
        b"POST /a/b?c=d?e HTTP/1.1\r\nHost: a.b\r\nCookie: a=1\r\nORIGIN: o\r\nReferer: /x\r\nReferer: /y\r\nX-CSRFToken: c\r\nX-Forwarded-Proto: https\r\nContent-Type: Application/x-www-form-urlencoded; a\r\nCookie: b=2\r\nContent-Length: 3\r\n\r\na=b";
    match first_of(rt.alloc(), bytes)? {
        None => panic!(rt; "a request is there"),
        Some(request) => assert_eq!(rt; is_the_whole_form(&request), true, "{request:?}"),
    }
    Ok(())
}

fn lacks_what_is_no_text(request: &Request) -> bool {
    request.method == Method::Other
        && request.path.as_str() == "/"
        && request.query.as_str() == ""
        && request.has_query
        && text_of(&request.host) == "none"
        && text_of(&request.referer) == "none"
        && text_of(&request.cookie) == "none"
        && !request.form
        && !request.keep
}

#[test]
fn a_field_that_is_no_text_is_absent(rt: HostRuntime) -> Result<(), Fail> {
    let bytes =
        b"get /? HTTP/1.1\r\nHost: \xff\r\nReferer: \xff\r\nReferer: /y\r\nCookie: \xff\r\nContent-Type: application/x-www-form-urlencoded ;\r\nConnection: Close\r\n\r\n";
    match first_of(rt.alloc(), bytes)? {
        None => panic!(rt; "a request is there"),
        Some(request) => {
            assert_eq!(rt; lacks_what_is_no_text(&request), true, "{request:?}");
        }
    }
    Ok(())
}

#[test]
fn each_refusal_comes_in_its_order(rt: HostRuntime) -> Result<(), Fail> {
    let alloc = rt.alloc();
    for (bytes, fault) in [
        ("", None),
        ("GET / HTTP/1.1\r\n", Some(EdgeFault::CutShort)),
        ("GET / HTTP/1.1\n\n\0", Some(EdgeFault::BadHead)),
        ("GET /\u{1}", Some(EdgeFault::CutShort)),
        ("GET /\u{1} ", Some(EdgeFault::BadHead)),
        (
            "GET / HTTP/1.1\nHost: a\nhost: b\n\n",
            Some(EdgeFault::BadHead),
        ),
        (
            "GET / HTTP/1.1\nContent-Length: 1\nContent-Length: 1\n\na",
            Some(EdgeFault::BadHead),
        ),
        (
            "GET / HTTP/1.1\nContent-Length: 1234567890123456\n\n",
            Some(EdgeFault::BadHead),
        ),
        (
            "GET / HTTP/1.1\nTransfer-Encoding: chunked\nContent-Length: 3000000\n\n",
            Some(EdgeFault::TransferCoding),
        ),
        (
            "GET / HTTP/1.1\nContent-Encoding: Identity\n\n",
            Some(EdgeFault::ContentCoding),
        ),
        (
            "GET / HTTP/1.1\nContent-Encoding: identity\nContent-Encoding: gzip\n\n",
            None,
        ),
        ("POST / HTTP/1.1\n\n", Some(EdgeFault::NoLength)),
        (
            "GET / HTTP/1.1\nContent-Length: 2621441\n\n",
            Some(EdgeFault::BodyTooLong),
        ),
        (
            "GET / HTTP/1.1\nContent-Length: 2\n\na",
            Some(EdgeFault::CutShort),
        ),
    ] {
        assert_eq!(rt; fault_of(alloc, bytes.as_bytes(), 7)?, fault, "{bytes}");
    }
    Ok(())
}

#[test]
fn a_head_ends_within_16384_bytes(rt: HostRuntime) -> Result<(), Fail> {
    let alloc = rt.alloc();
    let mut bytes = b"GET /".to_vec(alloc)?;
    for _ in 0..16379 {
        bytes.push(b'a')?;
    }
    assert_eq!(rt;
        fault_of(alloc, &bytes, 4096)?,
        Some(EdgeFault::HeadTooLong)
    );
    bytes.pop();
    assert_eq!(rt; fault_of(alloc, &bytes, 4096)?, Some(EdgeFault::CutShort));
    Ok(())
}

#[test]
fn the_longest_body_is_read(rt: HostRuntime) -> Result<(), Fail> {
    let alloc = rt.alloc();
    let mut bytes = b"POST / HTTP/1.1\nContent-Length: 2621440\n\n".to_vec(alloc)?;
    for _ in 0..2_621_440 {
        bytes.push(b'a')?;
    }
    let lengths = lengths_of(alloc, &mut source_of(alloc, &bytes, 65536, &[])?)?;
    assert_eq!(rt; lengths.as_slice(), [2_621_440].as_slice());
    Ok(())
}

#[test]
fn a_head_in_single_bytes_is_read_to_its_end_and_no_further(rt: HostRuntime) -> Result<(), Fail> {
    let alloc = rt.alloc();
    for head in [
        "GET / HTTP/1.1\r\n\r\n",
        "GET / HTTP/1.1\n\n",
        "\r\n\nGET / HTTP/1.0\nA: b\r\n\n",
    ] {
        // The read after the head fails.
        let mut source = source_of(alloc, head.as_bytes(), 1, &[head.len() as u64])?;
        let mut reader = Reader::new(alloc)?;
        let request = read_request(alloc, &mut reader, &mut source)?;
        assert!(rt; request.is_some(), "{head}");
    }
    Ok(())
}

#[test]
fn a_failed_read_is_reported(rt: HostRuntime) -> Result<(), Fail> {
    let alloc = rt.alloc();
    let bytes = b"GET / HTTP/1.1\n\nGET / HTTP/1.1\n\n";
    let mut source = source_of(alloc, bytes, 20, &[1])?;
    let mut reader = Reader::new(alloc)?;
    assert_eq!(rt;
        read_request(alloc, &mut reader, &mut source)?.is_some(),
        true
    );
    match read_request(alloc, &mut reader, &mut source) {
        Ok(_) => panic!(rt; "the fault is reported"),
        Err(fault) => assert_eq!(rt; fault, EdgeFault::ReadFault),
    }
    Ok(())
}
