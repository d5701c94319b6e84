//! The patterns and templates of conditionals and delayed expressions, step by step (R7RS 4.2.1, 4.2.5).
use crate::sketch::Step;
use crate::sketch::Step::{List, Name, Truth};

/// `cond`.
pub const COND: [Step; 121] = [
    // (_ (else e0 e ...))
    Name("_"),
    Name("else"),
    Name("e0"),
    Name("e"),
    Name("..."),
    List(4),
    List(2),
    // (begin e0 e ...)
    Name("begin"),
    Name("e0"),
    Name("e"),
    Name("..."),
    List(4),
    // (_ (t => f))
    Name("_"),
    Name("t"),
    Name("=>"),
    Name("f"),
    List(3),
    List(2),
    // (let ((x t)) (if x (f x)))
    Name("let"),
    Name("x"),
    Name("t"),
    List(2),
    List(1),
    Name("if"),
    Name("x"),
    Name("f"),
    Name("x"),
    List(2),
    List(3),
    List(3),
    // (_ (t => f) c0 c ...)
    Name("_"),
    Name("t"),
    Name("=>"),
    Name("f"),
    List(3),
    Name("c0"),
    Name("c"),
    Name("..."),
    List(5),
    // (let ((x t)) (if x (f x) (cond c0 c ...)))
    Name("let"),
    Name("x"),
    Name("t"),
    List(2),
    List(1),
    Name("if"),
    Name("x"),
    Name("f"),
    Name("x"),
    List(2),
    Name("cond"),
    Name("c0"),
    Name("c"),
    Name("..."),
    List(4),
    List(4),
    List(3),
    // (_ (t))
    Name("_"),
    Name("t"),
    List(1),
    List(2),
    // t
    Name("t"),
    // (_ (t) c0 c ...)
    Name("_"),
    Name("t"),
    List(1),
    Name("c0"),
    Name("c"),
    Name("..."),
    List(5),
    // (let ((x t)) (if x x (cond c0 c ...)))
    Name("let"),
    Name("x"),
    Name("t"),
    List(2),
    List(1),
    Name("if"),
    Name("x"),
    Name("x"),
    Name("cond"),
    Name("c0"),
    Name("c"),
    Name("..."),
    List(4),
    List(4),
    List(3),
    // (_ (t e0 e ...))
    Name("_"),
    Name("t"),
    Name("e0"),
    Name("e"),
    Name("..."),
    List(4),
    List(2),
    // (if t (begin e0 e ...))
    Name("if"),
    Name("t"),
    Name("begin"),
    Name("e0"),
    Name("e"),
    Name("..."),
    List(4),
    List(3),
    // (_ (t e0 e ...) c0 c ...)
    Name("_"),
    Name("t"),
    Name("e0"),
    Name("e"),
    Name("..."),
    List(4),
    Name("c0"),
    Name("c"),
    Name("..."),
    List(5),
    // (if t (begin e0 e ...) (cond c0 c ...))
    Name("if"),
    Name("t"),
    Name("begin"),
    Name("e0"),
    Name("e"),
    Name("..."),
    List(4),
    Name("cond"),
    Name("c0"),
    Name("c"),
    Name("..."),
    List(4),
    List(4),
];

/// `case`.
pub const CASE: [Step; 18] = [
    // (_ k c0 c ...)
    Name("_"),
    Name("k"),
    Name("c0"),
    Name("c"),
    Name("..."),
    List(5),
    // (let ((x k)) (%case x c0 c ...))
    Name("let"),
    Name("x"),
    Name("k"),
    List(2),
    List(1),
    Name("%case"),
    Name("x"),
    Name("c0"),
    Name("c"),
    Name("..."),
    List(5),
    List(3),
];

/// `%case`.
pub const SUB_CASE: [Step; 88] = [
    // (_ x)
    Name("_"),
    Name("x"),
    List(2),
    // #f
    Truth(false),
    // (_ x (else => f))
    Name("_"),
    Name("x"),
    Name("else"),
    Name("=>"),
    Name("f"),
    List(3),
    List(3),
    // (f x)
    Name("f"),
    Name("x"),
    List(2),
    // (_ x (else e0 e ...))
    Name("_"),
    Name("x"),
    Name("else"),
    Name("e0"),
    Name("e"),
    Name("..."),
    List(4),
    List(3),
    // (begin e0 e ...)
    Name("begin"),
    Name("e0"),
    Name("e"),
    Name("..."),
    List(4),
    // (_ x ((d ...) => f) c ...)
    Name("_"),
    Name("x"),
    Name("d"),
    Name("..."),
    List(2),
    Name("=>"),
    Name("f"),
    List(3),
    Name("c"),
    Name("..."),
    List(5),
    // (if (memv x '(d ...)) (f x) (%case x c ...))
    Name("if"),
    Name("memv"),
    Name("x"),
    Name("quote"),
    Name("d"),
    Name("..."),
    List(2),
    List(2),
    List(3),
    Name("f"),
    Name("x"),
    List(2),
    Name("%case"),
    Name("x"),
    Name("c"),
    Name("..."),
    List(4),
    List(4),
    // (_ x ((d ...) e0 e ...) c ...)
    Name("_"),
    Name("x"),
    Name("d"),
    Name("..."),
    List(2),
    Name("e0"),
    Name("e"),
    Name("..."),
    List(4),
    Name("c"),
    Name("..."),
    List(5),
    // (if (memv x '(d ...)) (begin e0 e ...) (%case x c ...))
    Name("if"),
    Name("memv"),
    Name("x"),
    Name("quote"),
    Name("d"),
    Name("..."),
    List(2),
    List(2),
    List(3),
    Name("begin"),
    Name("e0"),
    Name("e"),
    Name("..."),
    List(4),
    Name("%case"),
    Name("x"),
    Name("c"),
    Name("..."),
    List(4),
    List(4),
];

/// `and`.
pub const AND: [Step; 20] = [
    // (_)
    Name("_"),
    List(1),
    // #t
    Truth(true),
    // (_ e)
    Name("_"),
    Name("e"),
    List(2),
    // e
    Name("e"),
    // (_ e f ...)
    Name("_"),
    Name("e"),
    Name("f"),
    Name("..."),
    List(4),
    // (if e (and f ...) #f)
    Name("if"),
    Name("e"),
    Name("and"),
    Name("f"),
    Name("..."),
    List(3),
    Truth(false),
    List(4),
];

/// `or`.
pub const OR: [Step; 26] = [
    // (_)
    Name("_"),
    List(1),
    // #f
    Truth(false),
    // (_ e)
    Name("_"),
    Name("e"),
    List(2),
    // e
    Name("e"),
    // (_ e f ...)
    Name("_"),
    Name("e"),
    Name("f"),
    Name("..."),
    List(4),
    // (let ((x e)) (if x x (or f ...)))
    Name("let"),
    Name("x"),
    Name("e"),
    List(2),
    List(1),
    Name("if"),
    Name("x"),
    Name("x"),
    Name("or"),
    Name("f"),
    Name("..."),
    List(3),
    List(4),
    List(3),
];

/// `when`.
pub const WHEN: [Step; 14] = [
    // (_ t e0 e ...)
    Name("_"),
    Name("t"),
    Name("e0"),
    Name("e"),
    Name("..."),
    List(5),
    // (if t (begin e0 e ...))
    Name("if"),
    Name("t"),
    Name("begin"),
    Name("e0"),
    Name("e"),
    Name("..."),
    List(4),
    List(3),
];

/// `unless`.
pub const UNLESS: [Step; 15] = [
    // (_ t e0 e ...)
    Name("_"),
    Name("t"),
    Name("e0"),
    Name("e"),
    Name("..."),
    List(5),
    // (if t #f (begin e0 e ...))
    Name("if"),
    Name("t"),
    Truth(false),
    Name("begin"),
    Name("e0"),
    Name("e"),
    Name("..."),
    List(4),
    List(4),
];

/// `delay`.
pub const DELAY: [Step; 9] = [
    // (_ e)
    Name("_"),
    Name("e"),
    List(2),
    // (make-promise (lambda () e))
    Name("make-promise"),
    Name("lambda"),
    List(0),
    Name("e"),
    List(3),
    List(2),
];

/// `delay-force`.
pub const DELAY_FORCE: [Step; 9] = [
    // (_ e)
    Name("_"),
    Name("e"),
    List(2),
    // (make-promise (lambda () e))
    Name("make-promise"),
    Name("lambda"),
    List(0),
    Name("e"),
    List(3),
    List(2),
];
