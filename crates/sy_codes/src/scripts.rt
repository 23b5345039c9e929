//! Faults of relays' files.

use crate::code::{Code, fault};
use sy_rules::FaultCode as PlanCode;
use sy_script::FaultCode as ScriptCode;
use sy_select::FaultCode as SelectorCode;

/// What makes a file no script.
pub(crate) fn script_codes() -> [Code; 7] {
    [
        fault(
            ScriptCode::Byte.words(),
            "a byte begins no word, string or sign, or may not come after a backslash",
            "write quotes of ASCII, and # or /* */ round what is a comment",
        ),
        fault(
            ScriptCode::Unclosed.words(),
            "a string, comment, parenthesis or brace is opened there, and never closed",
            "close it",
        ),
        fault(
            ScriptCode::Unexpected.words(),
            "a word or sign stands where none like it may",
            "look at what is before it: a bracket or a quote that is lacking, a legacy line ($..), or a word of another format",
        ),
        fault(
            ScriptCode::TooDeep.words(),
            "more than 32 blocks, parentheses and nots lie in one another",
            "move an inner part to a ruleset, and call it",
        ),
        fault(
            ScriptCode::TooLarge.words(),
            "a file has more than 1 MiB",
            "divide it among relays",
        ),
        fault(
            ScriptCode::LeftOut.words(),
            "a statement of rsyslog that changes messages or that reads other files, which no proof covers here",
            "have the sender do it, or an rsyslogd in front of this relay",
        ),
        fault(
            ScriptCode::NoMemory.words(),
            "there was no memory to read a file",
            "give the program more memory",
        ),
    ]
}

/// What makes a script no plan of a relay.
pub(crate) fn plan_codes() -> [Code; 15] {
    [
        fault(
            SelectorCode::Facility.words(),
            "a selector names a facility that isn't there",
            "write kern, user, mail, daemon, auth, syslog, lpr, news, uucp, cron, authpriv, ftp, local0 to local7, or *",
        ),
        fault(
            SelectorCode::Severity.words(),
            "a selector names a severity that isn't there",
            "write emerg, alert, crit, err, warning, notice, info, debug, * or none",
        ),
        fault(
            SelectorCode::Shape.words(),
            "a selector isn't FACILITIES.SEVERITY, several of them with ; between",
            "write as auth,authpriv.info;kern.* without blanks",
        ),
        fault(
            SelectorCode::Operator.words(),
            "a comparison isn't one of those that a test may have",
            "write ==, !=, <, <=, >, >=, contains, startswith or isequal, as the property has it",
        ),
        fault(
            SelectorCode::NoMemory.words(),
            "there was no memory to read a test",
            "give the program more memory",
        ),
        fault(
            PlanCode::Missing.words(),
            "an object lacks a parameter that it needs",
            "give it, as action(type=\"omfile\" file=\"audit.log\")",
        ),
        fault(
            PlanCode::Duplicate.words(),
            "a parameter or a name is given twice",
            "take one of them away",
        ),
        fault(
            PlanCode::Unknown.words(),
            "an object doesn't have such a parameter, or a ruleset or property of that name isn't there",
            "correct the name; syc-conf(5) lists what there is",
        ),
        fault(
            PlanCode::BadValue.words(),
            "a parameter has a value of the wrong shape",
            "write on or off, a number, or one of the words that the parameter has",
        ),
        fault(
            PlanCode::Range.words(),
            "a number is out of range, or there are too many inputs, rulesets, actions or workers",
            "write a number within the range; a file has at most 64 inputs, 256 rulesets, 256 actions and 256 workers",
        ),
        fault(
            PlanCode::CallDepth.words(),
            "rulesets call each other more than 16 deep, or in a circle",
            "give a ruleset of the circle a queue, or write its statements where it is called",
        ),
        fault(
            PlanCode::TooManyDeeds.words(),
            "a list has more than 64 actions and posts once its calls are expanded, or more than 65536 statements",
            "give a called ruleset a queue: then it is a list of its own",
        ),
        fault(
            PlanCode::SamePort.words(),
            "two inputs have one port",
            "give one of them another port",
        ),
        fault(
            PlanCode::NotLoaded.words(),
            "there is an input, and its module isn't loaded",
            "write module(load=\"imtcp\")",
        ),
        fault(
            PlanCode::NoMemory.words(),
            "there was no memory to make a plan",
            "give the program more memory",
        ),
    ]
}
