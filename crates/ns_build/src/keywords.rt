//! The words that begin a command, and those after the simulator's word.

ghost use Rattle.std.specs.Prelude.{◌≡◌};
ghost use Rattle.ns_build.specs.Keywords.{setting_of, keyword_of, verb_of};

/// The first word of a command.
#[derive(Clone, Copy, Drop)]
pub(crate) enum Keyword {
    New,
    Source,
    NodeOs,
    Hardware,
    NodeIp,
    LinkIp,
    LanIp,
    LinkLoss,
    LanLoss,
    Multiplexed,
    FixNode,
    SoftVtype,
    /// A word that begins with `tb-` and is no setting here.
    OtherSetting,
}

/// The word after the simulator's word.
#[derive(Clone, Copy, Drop)]
pub(crate) enum Verb {
    MakeNode,
    DuplexLink,
    MakeLan,
    RouteBy,
    At,
    Run,
}

/// The setting of the testbed that the first word names.
fn setting_of(word: &[u8]) -> Option<Keyword>
    ensures { result ≡ setting_of word.now }
{
    if word == b"tb-set-node-os".as_slice() {
        Some(Keyword::NodeOs)
    } else if word == b"tb-set-hardware".as_slice() {
        Some(Keyword::Hardware)
    } else if word == b"tb-set-ip".as_slice() {
        Some(Keyword::NodeIp)
    } else if word == b"tb-set-ip-link".as_slice() {
        Some(Keyword::LinkIp)
    } else if word == b"tb-set-ip-lan".as_slice() {
        Some(Keyword::LanIp)
    } else if word == b"tb-set-link-loss".as_slice() {
        Some(Keyword::LinkLoss)
    } else if word == b"tb-set-lan-loss".as_slice() {
        Some(Keyword::LanLoss)
    } else if word == b"tb-set-multiplexed".as_slice() {
        Some(Keyword::Multiplexed)
    } else if word == b"tb-fix-node".as_slice() {
        Some(Keyword::FixNode)
    } else if word == b"tb-make-soft-vtype".as_slice() {
        Some(Keyword::SoftVtype)
    } else if word.starts_with(b"tb-".as_slice()) {
        Some(Keyword::OtherSetting)
    } else {
        None
    }
}

/// The command that the first word names; None where it is none of the testbed.
pub(crate) fn keyword_of(word: &[u8]) -> Option<Keyword>
    ensures { result ≡ keyword_of word.now }
{
    if word == b"new".as_slice() {
        Some(Keyword::New)
    } else if word == b"source".as_slice() {
        Some(Keyword::Source)
    } else {
        setting_of(word)
    }
}

/// The verb that a word is after the simulator's word.
pub(crate) fn verb_of(word: &[u8]) -> Option<Verb>
    ensures { result ≡ verb_of word.now }
{
    if word == b"node".as_slice() {
        Some(Verb::MakeNode)
    } else if word == b"duplex-link".as_slice() {
        Some(Verb::DuplexLink)
    } else if word == b"make-lan".as_slice() {
        Some(Verb::MakeLan)
    } else if word == b"rtproto".as_slice() {
        Some(Verb::RouteBy)
    } else if word == b"at".as_slice() {
        Some(Verb::At)
    } else if word == b"run".as_slice() {
        Some(Verb::Run)
    } else {
        None
    }
}
