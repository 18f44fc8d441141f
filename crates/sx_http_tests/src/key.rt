//! Published vectors, and worked examples of signing and checking, with ample memory.
use std::alloc::Global;
use std::process::Abort;
use sx_base::Items;
use sx_http::{Head, Header, Method};
use sx_key::{Account, AccountFault, AuthFault, check, hmac, sign, string_to_sign};
use sx_names::Text;

fn text(rt: &impl Abort, alloc: Global, bytes: &[u8]) -> Text {
    let Ok(items) = Items::copy_of(alloc, bytes) else {
        panic!(rt; "no memory");
    };
    match Text::of(items) {
        Some(text) => text,
        None => panic!(rt; "{bytes:?} is no text"),
    }
}

fn account(rt: &impl Abort, alloc: Global, name: &str, key: &str) -> Account {
    match Account::read(alloc, name.as_bytes(), key.as_bytes()) {
        Ok(account) => account,
        Err(fault) => panic!(rt; "{name} {key}: {fault:?}"),
    }
}

fn give(rt: &impl Abort, alloc: Global, head: &mut Head, name: &str, value: &[u8]) {
    let name = text(rt, alloc, name.as_bytes());
    let Ok(value) = Items::copy_of(alloc, value) else {
        panic!(rt; "no memory");
    };
    if head.headers.push(Header { name, value }).is_err() {
        panic!(rt; "no memory");
    }
}

fn head(
    rt: &impl Abort,
    alloc: Global,
    method: &str,
    target: &str,
    headers: &[(&str, &str)],
) -> Head {
    let Ok(method) = Method::from_bytes(alloc, method.as_bytes()) else {
        panic!(rt; "{method} is no method");
    };
    let target = text(rt, alloc, target.as_bytes());
    let mut head = Head {
        method,
        target,
        v11: true,
        headers: Items::new(alloc),
    };
    for (name, value) in headers {
        give(rt, alloc, &mut head, name, value.as_bytes());
    }
    head
}

fn put(rt: &impl Abort, alloc: Global, length: &str) -> Head {
    let headers = [
        ("content-length", length),
        ("x-ms-date", "Sat, 01 Jan 2022 00:00:00 GMT"),
        ("x-ms-range", "bytes=0-3"),
        ("x-ms-version", "2020-10-02"),
        ("x-ms-write", "update"),
    ];
    head(rt, alloc, "PUT", "/data/a.txt?comp=range", &headers)
}

/// The head with the header that `sign` gives it.
fn signed(rt: &impl Abort, alloc: Global, mut head: Head, account: &Account) -> Head {
    match sign(alloc, &head, account) {
        Ok(value) => give(rt, alloc, &mut head, "authorization", value.bytes()),
        Err(_) => panic!(rt; "no memory"),
    }
    head
}

fn signed_text(rt: &impl Abort, alloc: Global, head: &Head) -> Text {
    match string_to_sign(alloc, head, &text(rt, alloc, b"acct")) {
        Ok(text) => text,
        Err(_) => panic!(rt; "no memory"),
    }
}

/// The first two cases of RFC 4231, section 4.
#[test]
fn published_vectors(rt: HostRuntime) {
    let cases: [(&[u8], &[u8], &[u8]); 2] = [
        (
            b"\x0b\x0b\x0b\x0b\x0b\x0b\x0b\x0b\x0b\x0b\x0b\x0b\x0b\x0b\x0b\x0b\x0b\x0b\x0b\x0b",
            b"Hi There",
            b"\xb0\x34\x4c\x61\xd8\xdb\x38\x53\x5c\xa8\xaf\xce\xaf\x0b\xf1\x2b\
              \x88\x1d\xc2\x00\xc9\x83\x3d\xa7\x26\xe9\x37\x6c\x2e\x32\xcf\xf7",
        ),
        (
            b"Jefe",
            b"what do ya want for nothing?",
            b"\x5b\xdc\xc1\x46\xbf\x60\x75\x4e\x6a\x04\x24\x26\x08\x95\x75\xc7\
              \x5a\x00\x3f\x08\x9d\x27\x39\x83\x9d\xec\x58\xb9\x64\xec\x38\x43",
        ),
    ];
    for (key, message, digest) in cases.iter() {
        let computed = hmac(*key, *message);
        assert_eq!(rt; computed.as_slice(), *digest);
    }
}

const LINES: &str =
    "\n\n\n\n\n\n\n\n\nx-ms-date:Sat, 01 Jan 2022 00:00:00 GMT\nx-ms-range:bytes=0-3\nx-ms-version:2020-10-02\n\
     x-ms-write:update\n/acct/data/a.txt\ncomp:range";

/// The text of an update has so many bytes, and its signature is that one.
fn signs(rt: &impl Abort, alloc: Global, length: &str, bytes: usize, value: &str) {
    let head = put(rt, alloc, length);
    let text = signed_text(rt, alloc, &head);
    assert_eq!(rt; text.bytes().len(), bytes);
    assert!(rt; text.bytes().ends_with(LINES.as_bytes()));
    is_signed_by(rt, alloc, &head, value);
}

fn is_signed_by(rt: &impl Abort, alloc: Global, head: &Head, value: &str) {
    let account = account(rt, alloc, "acct", "a2V5");
    match sign(alloc, head, &account) {
        Ok(signed) => assert_eq!(rt; signed.bytes(), value.as_bytes()),
        Err(_) => panic!(rt; "no memory"),
    }
}

/// StringToSign of an update and of one without bytes, and their signatures, which openssl gives too.
#[test]
fn update_is_signed(rt: HostRuntime) {
    let value = "SharedKey acct:gYyI//hIlhaFaBwYSsrGmXWZNdv+Q/+3TfCKgDokTfw=";
    signs(&rt, rt.alloc(), "4", 146, value);
    let value = "SharedKey acct:yrfANInyXScWuZZQvC5+W4Ku6x4dZKYJjcSQnoBWXIg=";
    signs(&rt, rt.alloc(), "0", 145, value);
}

/// Headers of one name, blanks in values, bytes that aren't UTF-8, and a query's names and values.
#[test]
fn canonical_text(rt: HostRuntime) {
    let alloc = rt.alloc();
    let headers = [
        ("x-ms-meta-b", "\t one  two\t three "),
        ("date", "Sat, 01 Jan 2022 00:00:00 GMT"),
        ("content-type", "a/b"),
        ("x-ms-meta-a", "2"),
        ("content-type", "c/d"),
        ("x-ms-meta-a", "1"),
        ("x-other", "3"),
    ];
    let target = "/a%20b?Prefix=b&comp=list&&prefix=a%20c&flag&x=1%2c2&=";
    let mut get = head(&rt, alloc, "GET", target, &headers);
    give(&rt, alloc, &mut get, "range", b"\xffz");
    let text = signed_text(&rt, alloc, &get);
    let expected =
        "GET\n\n\n\n\na/b,c/d\nSat, 01 Jan 2022 00:00:00 GMT\n\n\n\n\n\u{fffd}z\nx-ms-meta-a:2,1\n\
         x-ms-meta-b:one two three\n/acct/a%20b\n:\ncomp:list\nflag:\nprefix:a c,b\nx:1,2";
    assert_eq!(rt; text.bytes(), expected.as_bytes());
}

/// The answer to a signed update at a moment.
fn answers(rt: &impl Abort, alloc: Global, now: u64, answer: Result<(), AuthFault>) {
    let account = account(rt, alloc, "acct", "a2V5");
    let head = signed(rt, alloc, put(rt, alloc, "4"), &account);
    assert_eq!(rt; check(alloc, &head, &account, now), answer);
}

/// A signed head passes from 15 minutes before its date to 15 minutes after it.
#[test]
fn edges_of_the_window(rt: HostRuntime) {
    let dated = 16409952000000000;
    let late = 16409961000000001;
    let early = 16409942999999999;
    let alloc = rt.alloc();
    answers(&rt, alloc, dated, Ok(()));
    answers(&rt, alloc, 16409961000000000, Ok(()));
    answers(
        &rt,
        alloc,
        late,
        Err(AuthFault::TooOld { dated, now: late }),
    );
    answers(&rt, alloc, 16409943000000000, Ok(()));
    answers(
        &rt,
        alloc,
        early,
        Err(AuthFault::TooNew { dated, now: early }),
    );
}

/// Gives a head the headers that stand a line each in a text.
fn give_lines(rt: &impl Abort, alloc: Global, head: &mut Head, lines: &str) {
    for line in lines.lines() {
        match line.split_once(": ") {
            Some((name, value)) => give(rt, alloc, head, name, value.as_bytes()),
            None => panic!(rt; "{line} is no header"),
        }
    }
}

/// The fault of a listing with an Authorization header of this value, and these other headers.
fn has_fault(rt: &impl Abort, alloc: Global, value: &str, lines: &str, fault: AuthFault) {
    let mut get = head(rt, alloc, "GET", "/?comp=list", &[]);
    give(rt, alloc, &mut get, "authorization", value.as_bytes());
    give_lines(rt, alloc, &mut get, lines);
    is_refused(rt, alloc, &get, fault);
}

fn is_refused(rt: &impl Abort, alloc: Global, head: &Head, fault: AuthFault) {
    let account = account(rt, alloc, "acct", "a2V5");
    assert_eq!(rt; check(alloc, head, &account, 16409952000000000), Err(fault));
}

const OWN: &str = "SharedKey acct:yrfANInyXScWuZZQvC5+W4Ku6x4dZKYJjcSQnoBWXIg=";

const OTHER: &str = "SharedKey other:yrfANInyXScWuZZQvC5+W4Ku6x4dZKYJjcSQnoBWXIg=";

#[test]
fn a_header_is_wanted(rt: HostRuntime) {
    let get = head(&rt, rt.alloc(), "GET", "/?comp=list", &[]);
    is_refused(&rt, rt.alloc(), &get, AuthFault::NoHeader);
}

/// Values that aren't of the form.
#[test]
fn bad_headers(rt: HostRuntime) {
    let cases = [
        "SharedKey  acct:yrfANInyXScWuZZQvC5+W4Ku6x4dZKYJjcSQnoBWXIg=",
        "sharedkey acct:yrfANInyXScWuZZQvC5+W4Ku6x4dZKYJjcSQnoBWXIg=",
        "SharedKey ACCT:yrfANInyXScWuZZQvC5+W4Ku6x4dZKYJjcSQnoBWXIg=",
        "SharedKey acct:yrfANInyXScWuZZQvC5+W4Ku6x4dZKYJjcSQnoBWXIg",
        "SharedKey acct:a2V5",
    ];
    for value in cases {
        has_fault(&rt, rt.alloc(), value, "", AuthFault::BadHeader);
    }
}

/// Each other fault, and the order in which they come.
#[test]
fn faults_of_requests(rt: HostRuntime) {
    let again = "authorization: SharedKey acct:yrfANInyXScWuZZQvC5+W4Ku6x4dZKYJjcSQnoBWXIg=";
    let day = "date: Sat, 01 Jan 2022 00:00:00 GMT";
    let twice = "date: Sat, 01 Jan 2022 00:00:00 GMT\ndate: Sat, 01 Jan 2022 00:00:00 GMT";
    let own_bad = "date: Sat, 01 Jan 2022 00:00:00 GMT\nx-ms-date: today";
    let own_good = "date: today\nx-ms-date: Sat, 01 Jan 2022 00:00:00 GMT";
    let cases: [(&str, &str, AuthFault); 8] = [
        (OWN, again, AuthFault::BadHeader),
        (OTHER, "", AuthFault::OtherAccount),
        (OWN, "", AuthFault::NoDate),
        (OWN, "date: today", AuthFault::BadDate),
        (OWN, twice, AuthFault::BadDate),
        (OWN, own_bad, AuthFault::BadDate),
        (OWN, own_good, AuthFault::Differs),
        (OWN, day, AuthFault::Differs),
    ];
    for (value, lines, fault) in cases {
        has_fault(&rt, rt.alloc(), value, lines, fault);
    }
}

/// Names and keys of accounts.
#[test]
fn accounts_of_two_words(rt: HostRuntime) {
    let alloc = rt.alloc();
    let cases: [(&str, &str, Option<AccountFault>); 9] = [
        ("abc", "AA==", None),
        ("a0123456789012345678901b", "a2V5", None),
        ("ab", "", Some(AccountFault::BadName)),
        (
            "a0123456789012345678901bc",
            "a2V5",
            Some(AccountFault::BadName),
        ),
        ("Abc", "a2V5", Some(AccountFault::BadName)),
        ("a-c", "a2V5", Some(AccountFault::BadName)),
        ("abc", "", Some(AccountFault::BadKey)),
        ("abc", "a2V", Some(AccountFault::BadKey)),
        ("abc", "AB==", Some(AccountFault::BadKey)),
    ];
    for (name, key, fault) in cases {
        reads(&rt, rt.alloc(), name, key, fault);
    }
}

fn reads(rt: &impl Abort, alloc: Global, name: &str, key: &str, fault: Option<AccountFault>) {
    let read = Account::read(alloc, name.as_bytes(), key.as_bytes());
    assert_eq!(rt; read.err(), fault, "{name} {key}");
}

/// 20,000 parameters of as many names.
#[test]
fn many_parameters_are_signed(rt: HostRuntime) {
    let mut target = String::new(rt.alloc());
    for number in 0..20_000u32 {
        add_parameter(&rt, &mut target, number);
    }
    let head = head(&rt, rt.alloc(), "GET", target.as_str(), &[]);
    assert!(rt; signed_text(&rt, rt.alloc(), &head).bytes().len() > 20_000);
}

fn add_parameter(rt: &impl Abort, target: &mut String, number: u32) {
    let before = if number == 0 { "/?" } else { "&" };
    let added = target.push_str(before).is_ok()
        && target.push_str(NAMES[(number % 10) as usize]).is_ok();
    assert!(rt; added);
    for place in 0..5u32 {
        assert!(rt;
            target
                .push_str(NAMES[((number >> (3 * place)) & 7) as usize])
                .is_ok()
        );
    }
}

const NAMES: [&str; 10] = ["a", "b", "c", "d", "e", "f", "g", "h", "i", "j"];
