//! Lines that no answer has.

use std::alloc::Global;
use std::process::Abort;
use sx_answer_reader::{Unread, read_line};

/// Panics unless no answer has this line.
fn is_no_answer(rt: &impl Abort, alloc: Global, line: &str) {
    match read_line(alloc, line.as_bytes()) {
        Ok(_) => panic!(rt; "{line}"),
        Err(unread) => assert!(rt; unread == Unread::NoAnswer, "{line}"),
    }
}

#[test]
fn no_line_has_another_space_or_word(rt: HostRuntime) {
    is_no_answer(&rt, rt.alloc(), "");
    is_no_answer(&rt, rt.alloc(), "OK");
    is_no_answer(&rt, rt.alloc(), "OK ");
    is_no_answer(&rt, rt.alloc(), " OK 6 lock");
    is_no_answer(&rt, rt.alloc(), "OK 6 lock ");
    is_no_answer(&rt, rt.alloc(), "OK  6 lock");
    is_no_answer(&rt, rt.alloc(), "OK 6  lock");
    is_no_answer(&rt, rt.alloc(), "OK 6 lock\r");
    is_no_answer(&rt, rt.alloc(), "OK 6 lock\n");
    is_no_answer(&rt, rt.alloc(), "OK 6 lock 1");
}

#[test]
fn words_are_exact(rt: HostRuntime) {
    is_no_answer(&rt, rt.alloc(), "ok 6 lock");
    is_no_answer(&rt, rt.alloc(), "OK 6 Lock");
    is_no_answer(&rt, rt.alloc(), "OK 6 locks");
    is_no_answer(&rt, rt.alloc(), "OK 5 close");
    is_no_answer(&rt, rt.alloc(), "OK 5 close open");
    is_no_answer(&rt, rt.alloc(), "OK 3 open 1 made 2 0");
    is_no_answer(&rt, rt.alloc(), "ERR");
    is_no_answer(&rt, rt.alloc(), "ERR SYNTAX");
    is_no_answer(&rt, rt.alloc(), "ERR NO_MEMORY 1");
    is_no_answer(&rt, rt.alloc(), "quit");
}

#[test]
fn numbers_have_no_leading_zeros_and_fit(rt: HostRuntime) {
    is_no_answer(&rt, rt.alloc(), "OK 06 lock");
    is_no_answer(&rt, rt.alloc(), "OK +6 lock");
    is_no_answer(&rt, rt.alloc(), "OK -6 lock");
    is_no_answer(&rt, rt.alloc(), "OK x lock");
    is_no_answer(&rt, rt.alloc(), "OK 18446744073709551616 lock");
    is_no_answer(&rt, rt.alloc(), "OK 9 end 4294967296");
    is_no_answer(&rt, rt.alloc(), "OK 3 open 0 created 2 0");
    is_no_answer(&rt, rt.alloc(), "OK 3 open 1 created 2");
    is_no_answer(&rt, rt.alloc(), "ERR LINE 2097409");
    is_no_answer(&rt, rt.alloc(), "ERR HISTORY_FULL 8 2");
}

#[test]
fn bytes_are_counted_and_in_lower_case(rt: HostRuntime) {
    is_no_answer(&rt, rt.alloc(), "OK 4 read 0 ");
    is_no_answer(&rt, rt.alloc(), "OK 4 read 0");
    is_no_answer(&rt, rt.alloc(), "OK 4 read -");
    is_no_answer(&rt, rt.alloc(), "OK 4 read 1 -");
    is_no_answer(&rt, rt.alloc(), "OK 4 read 0 00");
    is_no_answer(&rt, rt.alloc(), "OK 4 read 1 0A");
    is_no_answer(&rt, rt.alloc(), "OK 4 read 1 0a0b");
    is_no_answer(&rt, rt.alloc(), "OK 4 read 2 0a0");
    is_no_answer(&rt, rt.alloc(), "OK 4 read 1 0g");
    is_no_answer(&rt, rt.alloc(), "OK 4 read 1 0a ");
}

#[test]
fn attributes_stand_once_and_in_order(rt: HostRuntime) {
    is_no_answer(&rt, rt.alloc(), "OK 5 stat 7 file 0 Hidden|ReadOnly 1 2 3");
    is_no_answer(&rt, rt.alloc(), "OK 5 stat 7 file 0 Hidden|Hidden 1 2 3");
    is_no_answer(&rt, rt.alloc(), "OK 5 stat 7 file 0 Hidden| 1 2 3");
    is_no_answer(&rt, rt.alloc(), "OK 5 stat 7 file 0 |Hidden 1 2 3");
    is_no_answer(&rt, rt.alloc(), "OK 5 stat 7 file 0 Hidden|None 1 2 3");
    is_no_answer(&rt, rt.alloc(), "OK 5 stat 7 file 0 hidden 1 2 3");
    is_no_answer(&rt, rt.alloc(), "OK 5 stat 7 file 0  1 2 3");
    is_no_answer(&rt, rt.alloc(), "OK 5 stat 7 link 0 None 1 2 3");
    is_no_answer(&rt, rt.alloc(), "OK 5 stat 7 file 0 None 1 2");
    is_no_answer(&rt, rt.alloc(), "OK 5 stat 7 file 0 None 1 2 3 4");
}

#[test]
fn names_are_counted_and_encoded_in_one_way(rt: HostRuntime) {
    is_no_answer(&rt, rt.alloc(), "OK 6 list 1 *");
    is_no_answer(&rt, rt.alloc(), "OK 6 list 0 * dir:0:a");
    is_no_answer(&rt, rt.alloc(), "OK 6 list 2 * dir:0:a");
    is_no_answer(&rt, rt.alloc(), "OK 6 list 18446744073709551615 * dir:0:a");
    is_no_answer(&rt, rt.alloc(), "OK 6 list 0 ");
    is_no_answer(&rt, rt.alloc(), "OK 6 list 0 %2A%2a");
    is_no_answer(&rt, rt.alloc(), "OK 6 list 1 * dir:1:a");
    is_no_answer(&rt, rt.alloc(), "OK 6 list 1 * file:05:a");
    is_no_answer(&rt, rt.alloc(), "OK 6 list 1 * file:5");
    is_no_answer(&rt, rt.alloc(), "OK 6 list 1 * link:5:a");
}

#[test]
fn names_are_texts(rt: HostRuntime) {
    is_no_answer(&rt, rt.alloc(), "OK 6 list 1 * file:5:a:b");
    is_no_answer(&rt, rt.alloc(), "OK 6 list 1 * file:5:%61");
    is_no_answer(&rt, rt.alloc(), "OK 6 list 1 * file:5:%c3%a9");
    is_no_answer(&rt, rt.alloc(), "OK 6 list 1 * file:5:%FF");
    is_no_answer(&rt, rt.alloc(), "OK 6 list 1 * file:5:a%2");
    is_no_answer(&rt, rt.alloc(), "OK 6 list 0 %FF");
}

#[test]
fn words_and_messages_of_refusals_go_together(rt: HostRuntime) {
    is_no_answer(&rt, rt.alloc(), "ERR BAD_NETWORK_NAME 7 no name");
    is_no_answer(&rt, rt.alloc(), "ERR NOT_A_DIRECTORY 7 directory id 5");
    is_no_answer(
        &rt,
        rt.alloc(),
        "ERR RANGE_NOT_LOCKED 7 lock handle 3.12 from 0 to 9",
    );
    is_no_answer(&rt, rt.alloc(), "ERR NOT_EMPTY 7 not empty id 5");
    is_no_answer(&rt, rt.alloc(), "ERR INVALID_HANDLE 7 handle 3");
    is_no_answer(&rt, rt.alloc(), "ERR INVALID_HANDLE 7 handle 0.1");
    is_no_answer(&rt, rt.alloc(), "ERR INVALID_HANDLE 7 handle 3.12.1");
    is_no_answer(&rt, rt.alloc(), "ERR INVALID_HANDLE handle 3.12");
    is_no_answer(&rt, rt.alloc(), "ERR DISK_FULL 7 quota used 10 more 3");
}
