// What the program says of one function.
use ae_words::Function;

// A block for each function, with a `~` between two: how it is written, and what is asked of it and done by it.
pub(crate) const FUNCTIONS: &str = "  -New_PRoject NAME [-File PATH]
      Makes a project in the current folder, in aegis.d. You are its first administrator. The file may give its attributes.
~  -New_Administrator USER..
      Gives users the role of administrator. An administrator asks.
~  -Remove_Administrator USER..
      Takes the role of administrator from users; the last one stays. An administrator asks.
~  -New_Developer USER..
      Gives users the role of developer. An administrator asks.
~  -Remove_Developer USER..
      Takes the role of developer from users. An administrator asks.
~  -New_ReViewer USER..
      Gives users the role of reviewer. An administrator asks.
~  -Remove_ReViewer USER..
      Takes the role of reviewer from users. An administrator asks.
~  -New_Integrator USER..
      Gives users the role of integrator. An administrator asks.
~  -Remove_Integrator USER..
      Takes the role of integrator from users. An administrator asks.
~  -Project_Attributes -File PATH
      Sets the attributes of the project that the file gives. An administrator asks.
~  -New_Change -File PATH
      Makes a change with the attributes of the file; it gets the least free number from 10 on. An administrator asks, or a
      developer where developers_may_create_changes is set.
~  -Change_Attributes -Change N -File PATH
      Sets the attributes of a change that isn't completed. An administrator asks.
~  -New_Change_Undo -Change N
      Takes back a change whose development hasn't begun. Who may make changes asks.
~  -Develop_Begin -Change N
      Begins the development of a change that waits for it. A developer asks, and becomes its developer. aegis.d/develop.N then
      holds the baseline and nothing else; what was there is kept in aegis.d/develop.N.old.
~  -Develop_Begin_Undo -Change N
      Gives the change back, without its list of files and its runs. Its developer asks. The directory stays.
~  -Build -Change N
      Runs build_command of aegis.conf in the directory of the change; its output goes to aegis.log there. The developer asks in
      a development, the integrator in an integration. In a development each file of the baseline that the change doesn't have
      is put there first, so say -cp before you edit one.
~  -Develop_End -Change N
      Ends the development: the files are frozen, and their paths locked. Its developer asks. A build and the tests of just these
      files are needed, those of -bl and -reg too where there is a baseline. What comes next is the review.
~  -Develop_End_Undo -Change N
      Takes the change up again, until its integration begins. Its developer asks.
~  -Review_Begin -Change N
      Begins the review of a change that awaits one, where develop_end_action is goto_awaiting_review. A reviewer asks.
~  -Review_Begin_Undo -Change N
      Gives the review back. Who began it asks.
~  -Review_PASS -Change N
      Passes a change that is being reviewed. A reviewer asks, and not its developer. Look at what is frozen: aediff N.
~  -Review_Pass_Undo -Change N
      Takes the pass back, until the integration begins. Who passed it asks.
~  -Review_FAIL -Change N
      Sends a change that is being reviewed back to its developer. A reviewer asks.
~  -Integrate_Begin -Change N
      Begins the integration of a change that awaits it, one at a time. An integrator asks, who is neither its developer nor its
      reviewer. aegis.d/integrate.D holds what the baseline would be; then come -b, -t, -t -bl and -t -reg.
~  -Integrate_Begin_Undo -Change N
      Gives the integration back. Its integrator asks.
~  -Integrate_PASS -Change N
      Makes what was integrated the new baseline, once it was built and tested there. Its integrator asks.
~  -Integrate_FAIL -Change N
      Sends the change back to its developer. Its integrator asks.
~  -CoPy_file -Change N PATH.. [-DELta N] [-OverWriting]
      Takes files of the project into the change, to be modified, and puts them into its directory, as they are or were after a
      delta. Its developer asks. What was there is kept in aegis.d/develop.N.old. With -ow also files that the change has.
~  -CoPy_file_Undo -Change N PATH..
      Takes them out again, and puts the baseline's files there. Its developer asks.
~  -New_File -Change N PATH..
      Adds new files to the change, and makes an empty one where there is none. Its developer asks. A PATH is one in the directory
      of the change, of the bytes A-Za-z0-9._+-/.
~  -New_File_Undo -Change N PATH..
      Takes them out again, and removes them; what they held is kept in aegis.d/develop.N.old. Its developer asks.
~  -New_Test -Change N PATH..
      The same as -nf, of tests: test_command runs each, and status 0 is right.
~  -New_Test_Undo -Change N PATH..
      The same as -nfu, of tests.
~  -ReMove_file -Change N PATH..
      Has the change remove files of the project, and removes them from its directory. Its developer asks.
~  -ReMove_file_Undo -Change N PATH..
      Has the change keep them, and puts the baseline's files there. Its developer asks.
~  -Test -Change N [-BaseLine | -REGression]
      Runs test_command for each test of the change. With -bl in aegis.d/base.N, over the baseline, where each has to end with
      status 1. With -reg for the tests of the baseline that the change doesn't have. Who asks is as for a build.
~  -List LISTING [-Change N]
      Prints a listing on standard output; aegis -Help has all of them. Anybody asks.
~  -SCRipt
      Does the lines of standard input, to its end: do WORDS, as USER, at MOMENT, put DIR PATH TEXT, fill .., drop DIR PATH. It
      holds the lock meanwhile, so give it from a file.
~  -GENerate START CHANGES FILES
      Makes the project gen with 1 to 200 changes of 1 to 99 files, drawn from the number START. Call it in an empty folder: it
      writes p.attr and c.attr there.
~  -AUDit
      Reads the store by itself, and prints a line for each delta: its change, the digest of its files, how many runs it needed,
      and who reviewed it. Or it names the first delta that isn't shown by its rows, or the damaged file. It writes nothing and
      takes no lock: give it again where another command works meanwhile. Anybody asks.
~  -REPort PATH
      Reads a report from the file PATH of the current folder, and prints its lines: rows of the project's changes, files, deltas,
      histories and runs, with sums, as in 'for c in changes { columns c.number:4, c.phase:1; }'. Anybody asks.
~  -Distribution_Send -Change N
      Writes the change set of a completed change to standard output: its descriptions, its cause, and what it did to each file, with
      the bytes that it gave it. Anybody asks.
~  -Distribution_Receive
      Reads such a text from standard input, to its end, and does what makes a change of it: it writes received.attr here, -nc with
      that, -db, -rm, -cp, -nt and -nf, and then the files in aegis.d/develop.N. It ends at the first of these that isn't done. Who
      asks is as for -nc and -db.
";

// Whether a block is that of the function with this pattern.
fn is_of(block: &str, pattern: &str) -> bool {
    match block
        .strip_prefix("  -")
        .and_then(|rest| rest.strip_prefix(pattern))
    {
        Some(rest) => rest.starts_with(' ') || rest.starts_with('\n'),
        None => false,
    }
}

/// What is said of a function.
pub fn text_of(function: Function) -> &'static str {
    let pattern = function.pattern();
    FUNCTIONS
        .split('~')
        .find(|block| is_of(block, pattern))
        .unwrap_or("  This function isn't there yet.\n")
}
