//! Which of the program's words names its file.
use tcl_shell::file_word;

/// The program's words, and which of them is the file.
struct Asked {
    words: &'static [&'static str],
    place: Option<usize>,
}

static ASKED: [Asked; 19] = [
    Asked {
        words: &[],
        place: None,
    },
    Asked {
        words: &["a.tcl"],
        place: Some(0),
    },
    Asked {
        words: &["-budget", "5", "a.tcl", "x"],
        place: Some(2),
    },
    Asked {
        words: &["-budget", "5"],
        place: None,
    },
    Asked {
        words: &["-budget", "x", "a.tcl"],
        place: None,
    },
    Asked {
        words: &["-budget", "9223372036854775807", "a"],
        place: Some(2),
    },
    Asked {
        words: &["-budget", "9223372036854775808", "a"],
        place: None,
    },
    Asked {
        words: &["-budget", "", "a"],
        place: None,
    },
    Asked {
        words: &["-budget"],
        place: None,
    },
    Asked {
        words: &["-slice", "5", "a"],
        place: Some(2),
    },
    Asked {
        words: &["-budget", "7", "-slice", "5", "a", "b"],
        place: Some(4),
    },
    Asked {
        words: &["-slice", "5", "-budget", "3", "a"],
        place: Some(2),
    },
    Asked {
        words: &["-slice", "5", "-slice", "3"],
        place: Some(2),
    },
    Asked {
        words: &["-slice", "9223372036854775807", "a"],
        place: Some(2),
    },
    Asked {
        words: &["-slice", "9223372036854775808", "a"],
        place: None,
    },
    Asked {
        words: &["-slice", "0", "a"],
        place: None,
    },
    Asked {
        words: &["-slice", "5"],
        place: None,
    },
    Asked {
        words: &["-budget", "7", "-slice"],
        place: None,
    },
    Asked {
        words: &["a", "-slice", "5"],
        place: Some(0),
    },
];

#[test]
fn the_file(rt: HostRuntime) {
    for row in &ASKED {
        assert!(rt;
            file_word(row.words) == row.place,
            "{} words",
            row.words.len()
        );
    }
}
