//! The kinds of all bytes.

use super::Kind;

/// The kind of each byte, in their order.
pub(super) static KINDS: [Kind; 256] = [
    Kind::Control,
    Kind::Control,
    Kind::Control,
    Kind::Control,
    Kind::Control,
    Kind::Control,
    Kind::Control,
    Kind::Control,
    Kind::Control,
    Kind::Tab,
    Kind::Lf,
    Kind::Control,
    Kind::Control,
    Kind::Blank,
    Kind::Control,
    Kind::Control,
    Kind::Control,
    Kind::Control,
    Kind::Control,
    Kind::Control,
    Kind::Control,
    Kind::Control,
    Kind::Control,
    Kind::Control,
    Kind::Control,
    Kind::Control,
    Kind::Control,
    Kind::Control,
    Kind::Control,
    Kind::Control,
    Kind::Control,
    Kind::Control,
    Kind::Blank, // space
    Kind::Other, // !
    Kind::Quote, // "
    Kind::Hash, // #
    Kind::Other, // $
    Kind::Other, // %
    Kind::Other, // &
    Kind::Quote, // '
    Kind::Open, // (
    Kind::Close, // )
    Kind::Other, // *
    Kind::Plus, // +
    Kind::Comma, // ,
    Kind::Minus, // -
    Kind::Dot, // .
    Kind::Slash, // /
    Kind::Zero, // 0
    Kind::One, // 1
    Kind::TwoToSeven, // 2
    Kind::TwoToSeven, // 3
    Kind::TwoToSeven, // 4
    Kind::TwoToSeven, // 5
    Kind::TwoToSeven, // 6
    Kind::TwoToSeven, // 7
    Kind::EightOrNine, // 8
    Kind::EightOrNine, // 9
    Kind::Colon, // :
    Kind::Other, // ;
    Kind::Less, // <
    Kind::Other, // =
    Kind::Close, // >
    Kind::Other, // ?
    Kind::Other, // @
    Kind::HexLetter, // A
    Kind::B, // B
    Kind::HexLetter, // C
    Kind::HexLetter, // D
    Kind::E, // E
    Kind::HexLetter, // F
    Kind::Letter, // G
    Kind::Letter, // H
    Kind::Letter, // I
    Kind::Letter, // J
    Kind::Letter, // K
    Kind::Letter, // L
    Kind::Letter, // M
    Kind::Letter, // N
    Kind::O, // O
    Kind::P, // P
    Kind::Letter, // Q
    Kind::Letter, // R
    Kind::Letter, // S
    Kind::Letter, // T
    Kind::Letter, // U
    Kind::Letter, // V
    Kind::Letter, // W
    Kind::X, // X
    Kind::Letter, // Y
    Kind::Letter, // Z
    Kind::Open, // [
    Kind::Other, // \
    Kind::Close, // ]
    Kind::Other, // ^
    Kind::Underscore, // _
    Kind::Other, // `
    Kind::HexLetter, // a
    Kind::B, // b
    Kind::HexLetter, // c
    Kind::HexLetter, // d
    Kind::E, // e
    Kind::HexLetter, // f
    Kind::Letter, // g
    Kind::Letter, // h
    Kind::Letter, // i
    Kind::Letter, // j
    Kind::Letter, // k
    Kind::Letter, // l
    Kind::Letter, // m
    Kind::Letter, // n
    Kind::O, // o
    Kind::P, // p
    Kind::Letter, // q
    Kind::Letter, // r
    Kind::Letter, // s
    Kind::Letter, // t
    Kind::Letter, // u
    Kind::Letter, // v
    Kind::Letter, // w
    Kind::X, // x
    Kind::Letter, // y
    Kind::Letter, // z
    Kind::Open, // {
    Kind::Other, // |
    Kind::Close, // }
    Kind::Other, // ~
    Kind::Other,
    Kind::Other,
    Kind::Other,
    Kind::Other,
    Kind::Other,
    Kind::Other,
    Kind::Other,
    Kind::Other,
    Kind::Other,
    Kind::Other,
    Kind::Other,
    Kind::Other,
    Kind::Other,
    Kind::Other,
    Kind::Other,
    Kind::Other,
    Kind::Other,
    Kind::Other,
    Kind::Other,
    Kind::Other,
    Kind::Other,
    Kind::Other,
    Kind::Other,
    Kind::Other,
    Kind::Other,
    Kind::Other,
    Kind::Other,
    Kind::Other,
    Kind::Other,
    Kind::Other,
    Kind::Other,
    Kind::Other,
    Kind::Other,
    Kind::Other,
    Kind::Other,
    Kind::Other,
    Kind::Other,
    Kind::Other,
    Kind::Other,
    Kind::Other,
    Kind::Other,
    Kind::Other,
    Kind::Other,
    Kind::Other,
    Kind::Other,
    Kind::Other,
    Kind::Other,
    Kind::Other,
    Kind::Other,
    Kind::Other,
    Kind::Other,
    Kind::Other,
    Kind::Other,
    Kind::Other,
    Kind::Other,
    Kind::Other,
    Kind::Other,
    Kind::Other,
    Kind::Other,
    Kind::Other,
    Kind::Other,
    Kind::Other,
    Kind::Other,
    Kind::Other,
    Kind::Other,
    Kind::Other,
    Kind::Other,
    Kind::Other,
    Kind::Other,
    Kind::Other,
    Kind::Other,
    Kind::Other,
    Kind::Other,
    Kind::Other,
    Kind::Other,
    Kind::Other,
    Kind::Other,
    Kind::Other,
    Kind::Other,
    Kind::Other,
    Kind::Other,
    Kind::Other,
    Kind::Other,
    Kind::Other,
    Kind::Other,
    Kind::Other,
    Kind::Other,
    Kind::Other,
    Kind::Other,
    Kind::Other,
    Kind::Other,
    Kind::Other,
    Kind::Other,
    Kind::Other,
    Kind::Other,
    Kind::Other,
    Kind::Other,
    Kind::Other,
    Kind::Other,
    Kind::Other,
    Kind::Other,
    Kind::Other,
    Kind::Other,
    Kind::Other,
    Kind::Other,
    Kind::Other,
    Kind::Other,
    Kind::Other,
    Kind::Other,
    Kind::Other,
    Kind::Other,
    Kind::Other,
    Kind::Other,
    Kind::Other,
    Kind::Other,
    Kind::Other,
    Kind::Other,
    Kind::Other,
    Kind::Other,
    Kind::Other,
    Kind::Other,
    Kind::Other,
    Kind::Other,
    Kind::Other,
    Kind::Other,
    Kind::Other,
    Kind::Other,
    Kind::Other,
    Kind::Other,
];
