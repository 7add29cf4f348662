//! What `pfstrace` writes of captures is read by a replay as their packets, and reported as the machine's run of them.

ghost use Rattle.pfs_capture_report.specs.Reported.{CaptureIsReported, TraceIsRead};

use pfs_conf_values::Config;

/// The trace of captures is read as the packets of those of their frames that are records: all of them, in the order of their
/// moments, each in its second, and no record is faulty. Of ICMP a record is a skip. It holds of every interface with a name, of
/// the bytes of all captures in either form, one or several, also of one whose end is cut, and of as many records as a trace may
/// have: 1,000,000,000. (own)
pub fn trace_again(config: &Config)
    ensures { TraceIsRead config.now }
{
    config.keeps_load_rules();
}

/// The report of the trace of captures is the one that the machine over plain lists defines for the packets that are found in
/// them: a line for each, and the last line with what is held then. (own)
pub fn capture_report(config: &Config)
    ensures { CaptureIsReported config.now }
{
    config.keeps_load_rules();
}
