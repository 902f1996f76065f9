// Words that other awks have.

/// Functions of gawk, and of no other awk.
const FUNCTIONS: [&str; 17] = [
    "and", "asort", "asorti", "compl", "gensub", "isarray", "lshift", "mkbool", "mktime", "or",
    "patsplit", "rshift", "strftime", "strtonum", "systime", "typeof", "xor",
];

/// Words that begin something that no other awk has.
const WORDS: [&str; 4] = ["switch", "case", "BEGINFILE", "ENDFILE"];

/// Whether this is a function of gawk, and of no other awk.
pub fn is_function_of_gawk(word: &str) -> bool {
    FUNCTIONS.contains(&word)
}

/// Whether this is a word of gawk that begins something that no other awk has.
pub fn is_word_of_gawk(word: &str) -> bool {
    WORDS.contains(&word)
}
