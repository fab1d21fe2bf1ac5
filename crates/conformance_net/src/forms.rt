// Cases by their forms, each from a name and words:
//   r  replaced: a position of the good net and its new word
//   d  doubly replaced: the same twice, and the number of words
//   e  early end: the number of words of the good net
//   k  kinds: a position of the good net and the bits below the kind
//   b  bits: a position of the good net, its word, the lowest bit to set and the number of bits
//   n  numbers: a NET word and the numbers of places and of transitions
//   w  words: a net
//   o  one transition, from word 6 on, of a net with two places, of one component and of two, each from 0 to 9
//   t  two transitions of such a net
//   l  long: a NET word and a number of transitions of one word, a bar, and the last words of a net of about 16,384
//   x  the same, with a conjunct less before them, so that an expression can be the last
//   m  much after: words behind the good net in a buffer of 16,400
//   c  check: the words of an outside case of check
//   s  split: the words of an outside case of split
use crate::length::{around, expression, much_after};
use crate::nets::{counted, damaged, headed, kinds, stray};
use crate::output::Output;
use crate::report::{check_line, split_line};
use conformance_plain::build::{front, write};
use std::fmt;

fn replaced(out: &mut Output, name: &[u8], text: &[u8]) -> fmt::Result {
    let mut a = [0; 2];
    write(&mut a, 0, text);
    let [at, w] = a;
    damaged(out, name, &[(at as usize, w)], 34)
}

fn doubly_replaced(out: &mut Output, name: &[u8], text: &[u8]) -> fmt::Result {
    let mut a = [0; 5];
    write(&mut a, 0, text);
    let [at, w, other, v, n] = a;
    damaged(
        out,
        name,
        &[(at as usize, w), (other as usize, v)],
        n as usize,
    )
}

fn early_end(out: &mut Output, name: &[u8], text: &[u8]) -> fmt::Result {
    let mut a = [0; 1];
    write(&mut a, 0, text);
    let [n] = a;
    damaged(out, name, &[], n as usize)
}

fn each_kind(out: &mut Output, name: &[u8], text: &[u8]) -> fmt::Result {
    let mut a = [0; 2];
    write(&mut a, 0, text);
    let [at, bits] = a;
    kinds(out, name, at as usize, bits)
}

fn each_bit(out: &mut Output, name: &[u8], text: &[u8]) -> fmt::Result {
    let mut a = [0; 4];
    write(&mut a, 0, text);
    let [at, w, lowest, bits] = a;
    stray(out, name, at as usize, w, lowest, bits)
}

fn numbers(out: &mut Output, name: &[u8], text: &[u8]) -> fmt::Result {
    let mut a = [0; 3];
    write(&mut a, 0, text);
    let [net, places, transitions] = a;
    counted(out, name, net, places, transitions as usize)
}

fn check_case(out: &mut Output, name: &[u8], text: &[u8]) -> fmt::Result {
    let mut words = [0; 128];
    let n = write(&mut words, 0, text);
    check_line(out, name, front(&words, n))
}

fn split_case(out: &mut Output, name: &[u8], text: &[u8]) -> fmt::Result {
    let mut words = [0; 128];
    let n = write(&mut words, 0, text);
    split_line(out, name, front(&words, n))
}

// One case.
pub fn run(out: &mut Output, form: u8, name: &[u8], text: &[u8]) -> fmt::Result {
    match form {
        b'r' => replaced(out, name, text),
        b'd' => doubly_replaced(out, name, text),
        b'e' => early_end(out, name, text),
        b'k' => each_kind(out, name, text),
        b'n' => numbers(out, name, text),
        b'w' => headed(out, name, b"", text),
        b'o' => headed(out, name, b"1:201 2:1 3:9 2:2 3:9 3:9", text),
        b't' => headed(out, name, b"1:202 2:1 3:9 2:2 3:9 3:9", text),
        b'l' => around(out, name, text),
        b'x' => expression(out, name, text),
        b'm' => much_after(out, name, text),
        b'c' => check_case(out, name, text),
        b's' => split_case(out, name, text),
        _ => each_bit(out, name, text),
    }
}
