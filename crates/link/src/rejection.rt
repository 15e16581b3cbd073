// Why a request is rejected, beside what a login is rejected for (document 01, "Link services").

ghost use Rattle.std.specs.Prelude.{◌≡◌};
ghost use Rattle.link.specs.Rejections.{rejected};

use reply::Reply;

#[derive(Clone, Copy)]
pub(crate) enum Rejection {
    OtherCode,
    WrongSize,
    // LOGO of another than the sender
    NotSender,
    // PRLI or PRLO without the page of FCP
    OtherPage,
    // RRQ of another than the sender
    NotAsker,
    // RRQ of an exchange that is open
    StillOpen,
}

// LS_RJT, with the reason and the explanation.
impl From<Rejection> for Reply {
    ghost from_gives = { λ why reply. reply ≡ rejected why };

    fn from(why: Rejection) -> Reply {
        match why {
            Rejection::OtherCode => Reply::Reject(0x0b, 0x00),
            Rejection::WrongSize => Reply::Reject(0x03, 0x00),
            Rejection::NotSender => Reply::Reject(0x03, 0x1f),
            Rejection::OtherPage => Reply::Reject(0x09, 0x00),
            Rejection::NotAsker => Reply::Reject(0x03, 0x15),
            Rejection::StillOpen => Reply::Reject(0x03, 0x17),
        }
    }
}
