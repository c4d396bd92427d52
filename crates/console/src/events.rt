// What a connection is told to do, a line each: to the user, to the transport, the timer, and the state.
use crate::answers::{front, refused};
use crate::text::{Word, line, named};
use table::{Actions, Connection, Step, Timer, ToTransport, ToUser};

// The user data of a unit stand behind its first byte.
fn user_data(unit: &[u8], n: usize) -> &[u8] {
    match unit {
        [_, data @ ..] => front(data, n),
        [] => unit,
    }
}

fn to_user(user: ToUser, peer: u32, unit: &[u8]) {
    match user {
        ToUser::Nothing => {}
        ToUser::ConnectIndication => line(format_args!("Sa-CONN.ind from {}", Word(peer))),
        ToUser::ConnectConfirmation => line("Sa-CONN.conf"),
        ToUser::DataIndication(n) => named("Sa-DATA.ind ", user_data(unit, n)),
        ToUser::DisconnectIndication(why) => {
            line(format_args!("Sa-DISC.ind {}/{}", why.reason, why.sub))
        }
        ToUser::ReportIndication(why) => {
            line(format_args!("Sa-REPORT.ind {}/{}", why.reason, why.sub))
        }
    }
}

fn to_transport(transport: ToTransport, unit: &[u8]) {
    match transport {
        ToTransport::Quiet => {}
        ToTransport::TConnReq => named("T-CONN.req AU1 ", unit),
        ToTransport::TConnResp => named("T-CONN.resp AU2 ", unit),
        ToTransport::TDiscReq => line("T-DISC.req"),
        ToTransport::TDiscReqDi => named("T-DISC.req DI ", unit),
        ToTransport::SendAu3 => named("AU3 ", unit),
        ToTransport::SendAr => named("AR ", unit),
        ToTransport::SendDt => named("DT ", unit),
    }
}

fn to_timer(timer: Timer) {
    match timer {
        Timer::Keep => {}
        Timer::Set => line("timer set"),
        Timer::Stop => line("timer stopped"),
        Timer::StopAll => line("timers stopped"),
    }
}

// The unit that was brought has the user data, and the output the unit that goes out.
fn acted(actions: Actions, peer: u32, unit: &[u8], out: &[u8]) {
    let Actions {
        user,
        transport,
        timer,
        written,
    } = actions;
    to_user(user, peer, unit);
    to_transport(transport, front(out, written));
    to_timer(timer);
    if let (ToUser::Nothing, ToTransport::Quiet, Timer::Keep) = (user, transport, timer) {
        line("no action");
    }
}

pub fn state(code: u8) {
    line(match code {
        Connection::WFTC => "state WFTC",
        Connection::WFAR => "state WFAR",
        Connection::DATA => "state DATA",
        Connection::WFAU3 => "state WFAU3",
        Connection::WFRESP => "state WFRESP",
        _ => "state IDLE",
    });
}

pub fn told(step: Step, unit: &[u8], out: &[u8]) {
    let connection = step.connection;
    match step.answer {
        Ok(actions) => {
            acted(actions, connection.peer, unit, out);
            state(connection.state);
        }
        Err(h) => refused(h),
    }
}
