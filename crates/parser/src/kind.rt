// The kinds of tokens, under the source's names: grammar's SyntaxKind. They stay numbers: a look answers with the byte of a lent record, whichever it is.
pub const DOT_DOT_DOT: u8 = 0;

pub const DOT: u8 = 1;

pub const BAR: u8 = 2;

pub const LROUND: u8 = 3;

pub const RROUND: u8 = 4;

pub const LCURLY: u8 = 5;

pub const RCURLY: u8 = 6;

pub const LSQUARE: u8 = 7;

pub const RSQUARE: u8 = 8;

pub const EQ: u8 = 9;

pub const STAR: u8 = 10;

pub const COMMA: u8 = 11;

pub const SEMICOLON: u8 = 12;

pub const COLON: u8 = 13;

pub const COLON_GT: u8 = 14;

pub const EQ_GT: u8 = 15;

pub const MINUS_GT: u8 = 16;

pub const UNDERSCORE: u8 = 17;

pub const HASH: u8 = 18;

pub const VAL_KW: u8 = 19;

pub const REC_KW: u8 = 20;

pub const AND_KW: u8 = 21;

pub const FUN_KW: u8 = 22;

pub const OP_KW: u8 = 23;

pub const TYPE_KW: u8 = 24;

pub const EQTYPE_KW: u8 = 25;

pub const DATATYPE_KW: u8 = 26;

pub const ABSTYPE_KW: u8 = 27;

pub const WITH_KW: u8 = 28;

pub const END_KW: u8 = 29;

pub const EXCEPTION_KW: u8 = 30;

pub const OPEN_KW: u8 = 31;

pub const INFIX_KW: u8 = 32;

pub const INFIXR_KW: u8 = 33;

pub const NONFIX_KW: u8 = 34;

pub const DO_KW: u8 = 35;

pub const LOCAL_KW: u8 = 36;

pub const IN_KW: u8 = 37;

pub const STRUCTURE_KW: u8 = 38;

pub const SIGNATURE_KW: u8 = 39;

pub const FUNCTOR_KW: u8 = 40;

pub const INCLUDE_KW: u8 = 41;

pub const STRUCT_KW: u8 = 42;

pub const LET_KW: u8 = 43;

pub const SIG_KW: u8 = 44;

pub const WHERE_KW: u8 = 45;

pub const SHARING_KW: u8 = 46;

pub const WITHTYPE_KW: u8 = 47;

pub const ESIMPORT_KW: u8 = 48;

pub const RAISE_KW: u8 = 49;

pub const IF_KW: u8 = 50;

pub const THEN_KW: u8 = 51;

pub const ELSE_KW: u8 = 52;

pub const WHILE_KW: u8 = 53;

pub const CASE_KW: u8 = 54;

pub const OF_KW: u8 = 55;

pub const FN_KW: u8 = 56;

pub const ANDALSO_KW: u8 = 57;

pub const ORELSE_KW: u8 = 58;

pub const HANDLE_KW: u8 = 59;

pub const AS_KW: u8 = 60;

pub const NAME: u8 = 61;

pub const TY_VAR: u8 = 62;

pub const INT_LIT: u8 = 63;

pub const REAL_LIT: u8 = 64;

pub const WORD_LIT: u8 = 65;

pub const CHAR_LIT: u8 = 66;

pub const STRING_LIT: u8 = 67;

pub const TRIVIA: u8 = 68;
