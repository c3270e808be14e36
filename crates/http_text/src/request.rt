// The bytes of an HTTP request, and where they go.

ghost use Rattle.std.specs.Prelude.{◌≡◌, ◌==◌, ◌++◌, length, ◌<◌, ◌≤◌, [], map, filter, IfOk, OnOk, IsErrOf, MatchOption, Ok, Some, None, not};
ghost use Rattle.std.specs.List.{flat_map, list_all, list_any};
ghost use Rattle.form_urlencoded.specs.Form.{extend_pairs, byte_serialize};
ghost use Rattle.form_urlencoded.specs.Form as form;
ghost use Rattle.httparse.specs.Grammar.{is_token, is_token_byte};
ghost use Rattle.url.specs.Parser.{parse_url};
ghost use Rattle.url.specs.Parts.{host_or_empty};
ghost use Rattle.url.specs.Host.{host_text};
ghost use Rattle.http_text.specs.RequestText.{HasUrl, HasNoUrl, HasNoTargetAt, IsTargetAt, IsTarget, IsBadTarget, port_of, port_in, slashed, query_mark, asked_path, url_text, body_of, form_of, is_form, is_left_out, is_valid_field, has_type, has_params, breaks_line, header_line, method_text, sends_form, pair_of, query_text, port_text, type_line, length_line, request_text, start_line, target_text, host_line, header_lines, head_end};

use crate::error::TargetError;
use form_urlencoded::byte_serialize;
use http_lines::{add, add_decimal, length_value};
use jm_base::{Items, M, Method, NoMemory, Text};
use std::alloc::Global;
use url::{ParseError, Url};

/// The most bytes of a request.
const REQUEST_LIMIT: usize = 1_048_576;

/// How many bytes stand around a pair of texts, at most: those of a header field. A parameter has two.
const PAIR_ROOM: usize = 4;

/// How many bytes the text of a URL has beside its host, its path and its parameters, at most.
const URL_ROOM: usize = 16;

/// How many bytes the head of a request has beside its URL and its header fields, at most.
const HEAD_ROOM: usize = 160;

/// A parameter or a header field of a request.
#[derive(Drop)]
pub struct NamedText {
    pub name: Text,
    pub value: Text,
}

/// What an HTTP sampler asks for, every template expanded (the manual's "HTTP Request").
#[derive(Drop)]
pub struct HttpSettings {
    /// A name or an address, as it stands in a URL. Empty, it names no target.
    pub host: Text,
    /// One to five digits of a number from 1 to 65,535. Empty, it is 80.
    pub port: Text,
    /// The path, which may have a query after a `?`. A `/` is put before one that does not begin with it, so an empty one is `/`.
    pub path: Text,
    pub method: Method,
    /// The parameters, which need not be UTF-8. `GET`, `HEAD` and `DELETE` send them after the path, `POST` and `PUT` as the body.
    pub params: Items<NamedText>,
    /// The body, which `POST` and `PUT` send only where there are no parameters.
    pub body: Text,
    /// The header fields: each name once, whatever its case, and in the order in which they are to be sent.
    pub headers: Items<NamedText>,
}

/// The bytes of a request, and where they go.
#[derive(Drop)]
pub struct Target {
    /// The host to be dialed, as the URL has it: a name in lower case, an address in its one form, of version 6 in brackets.
    pub host: Text,
    /// The port to be dialed, from 1 to 65,535.
    pub port: u16,
    /// The whole request, at most 1,048,576 bytes.
    pub bytes: Text,
}

/// The port of a text: 80 where it is empty.
fn port_of(text: &[u8]) -> Option<u16>
    ensures { result ≡ port_of text.now }
{
    if text.is_empty() {
        return Some(80);
    }
    if text.len() > 5 {
        return None;
    }
    match length_value(text) {
        Some(number) if 1 <= number && number <= 65_535 => Some(number as u16),
        _ => None,
    }
}

/// A method as it is written.
fn method_text(method: Method) -> &'static [u8]
    ensures { result.now ≡ method_text method }
{
    match method {
        Method::Get => b"GET",
        Method::Post => b"POST",
        Method::Put => b"PUT",
        Method::Delete => b"DELETE",
        Method::Head => b"HEAD",
    }
}

/// Whether a method sends parameters as the body.
fn sends_form(method: Method) -> bool
    ensures { result ≡ sends_form method }
{
    match method {
        Method::Post | Method::Put => true,
        Method::Get | Method::Delete | Method::Head => false,
    }
}

/// Whether a byte is among these.
fn holds(bytes: &[u8], byte: u8) -> bool
    ensures { result ≡ list_any (λ c. c == byte) bytes.now }
{
    bytes.iter().any(|c| *c == byte)
}

/// Whether a byte is one of a token.
#[tactic(auto, unfolding(httparse::specs::Grammar::is_token_byte))]
fn is_token_byte(byte: u8) -> bool
    ensures { result ≡ is_token_byte byte }
{
    byte.is_ascii_alphanumeric() || holds(b"!#$%&'*+-.^_`|~", byte)
}

/// Whether each byte is one of a token.
fn are_token_bytes(name: &[u8]) -> bool
    ensures { result ≡ list_all is_token_byte name.now }
{
    name.iter().all(|byte| is_token_byte(*byte))
}

/// Whether a name is a token (RFC 9110, section 5.6.2).
fn is_token(name: &[u8]) -> bool
    ensures { result ≡ is_token name.now }
{
    !name.is_empty() && are_token_bytes(name)
}

/// Whether a byte is CR, LF or NUL.
fn breaks_line(byte: u8) -> bool
    ensures { result ≡ breaks_line byte }
{
    byte == b'\r' || byte == b'\n' || byte == 0
}

/// Whether a value has such a byte.
fn has_break(value: &[u8]) -> bool
    ensures { result ≡ list_any breaks_line value.now }
{
    value.iter().any(|byte| breaks_line(*byte))
}

/// Whether a header field can be sent.
fn is_valid_field(field: &NamedText) -> bool
    ensures { result ≡ is_valid_field field.now }
{
    is_token(field.name.bytes()) && !has_break(field.value.bytes())
}

/// Whether all header fields can be sent.
fn are_valid_fields(fields: &[NamedText]) -> bool
    ensures { result ≡ list_all is_valid_field fields.now }
{
    fields.iter().all(is_valid_field)
}

/// Whether a header field is left out of the request.
fn is_left_out(field: &NamedText) -> bool
    ensures { result ≡ is_left_out field.now }
{
    let name = field.name.bytes();
    name.eq_ignore_ascii_case(b"host")
        || name.eq_ignore_ascii_case(b"connection")
        || name.eq_ignore_ascii_case(b"content-length")
        || name.eq_ignore_ascii_case(b"transfer-encoding")
}

/// Whether a content type was set.
fn has_type(settings: &HttpSettings) -> bool
    ensures { result ≡ has_type settings.now }
{
    settings.headers.as_slice().iter().any(|field| field
        .name
        .bytes()
        .eq_ignore_ascii_case(b"content-type"))
}

/// Adds a name or a value of a parameter, as a form writes it.
fn add_serialized(out: &mut Vec<u8>, bytes: &[u8]) -> M<()>
    ensures { OnOk result (out.new.items ≡ out.old.items ++ byte_serialize bytes.now) }
{
    for piece in byte_serialize(bytes) {
        add(out, piece.as_bytes())?;
    }
    Ok(())
}

/// Adds a parameter.
fn append_pair(out: &mut Vec<u8>, field: &NamedText) -> M<()>
    ensures { OnOk result (out.new.items ≡ form.append_pair out.old.items field.now.name field.now.value) }
{
    if !out.is_empty() {
        add(out, b"&")?;
    }
    add_serialized(out, field.name.bytes())?;
    add(out, b"=")?;
    add_serialized(out, field.value.bytes())
}

/// How many bytes pairs of texts have as header fields, and as parameters at most where none is escaped.
fn room_of(fields: &[NamedText]) -> usize {
    let mut room: usize = 0;
    for field in fields {
        let texts = field
            .name
            .bytes()
            .len()
            .saturating_add(field.value.bytes().len());
        room = room.saturating_add(texts).saturating_add(PAIR_ROOM);
    }
    room
}

/// The parameters as a form writes them.
fn form_of(alloc: Global, settings: &HttpSettings) -> M<Vec<u8>>
    ensures { IfOk result (λ v. v.items ≡ form_of settings.now) }
{
    let mut out = Vec::with_capacity(alloc, room_of(settings.params.as_slice()))?;
    for field in settings.params.as_slice() {
        append_pair(&mut out, field)?;
    }
    Ok(out)
}

/// Whether the body is the parameters.
fn is_form(settings: &HttpSettings) -> bool
    ensures { result ≡ is_form settings.now }
{
    !settings.params.as_slice().is_empty() && sends_form(settings.method)
}

/// Adds the path, with a slash before it where it does not begin with one.
fn add_slashed(out: &mut Vec<u8>, path: &[u8]) -> M<()>
    ensures { OnOk result (out.new.items ≡ out.old.items ++ slashed path.now) }
{
    if matches!(path, [b'/', ..]) {
        return add(out, path);
    }
    add(out, b"/")?;
    add(out, path)
}

/// What parts a path and the parameters after it.
fn mark_of(path: &[u8]) -> &'static [u8]
    ensures { result.now ≡ query_mark path.now }
{
    if holds(path, b'?') { b"&" } else { b"?" }
}

/// Adds what parts the path and the parameters, and the parameters.
fn add_params(alloc: Global, out: &mut Vec<u8>, settings: &HttpSettings) -> M<()>
    ensures { OnOk result (out.new.items ≡ out.old.items ++ query_mark settings.now.path ++ form_of settings.now) }
{
    let form = form_of(alloc, settings)?;
    add(out, mark_of(settings.path.bytes()))?;
    add(out, &form)
}

/// Adds the path, and the parameters where they are not the body.
fn add_asked_path(alloc: Global, out: &mut Vec<u8>, settings: &HttpSettings) -> M<()>
    ensures { OnOk result (out.new.items ≡ out.old.items ++ asked_path settings.now) }
{
    add_slashed(out, settings.path.bytes())?;
    if settings.params.as_slice().is_empty() || sends_form(settings.method) {
        return Ok(());
    }
    add_params(alloc, out, settings)
}

/// How many bytes the text of a URL has at most, where no byte of a parameter is escaped.
fn url_room(settings: &HttpSettings) -> usize {
    let query = if sends_form(settings.method) {
        0
    } else {
        room_of(settings.params.as_slice())
    };
    settings
        .host
        .bytes()
        .len()
        .saturating_add(settings.path.bytes().len())
        .saturating_add(query)
        .saturating_add(URL_ROOM)
}

/// The text of the URL that is asked for.
fn url_text(alloc: Global, settings: &HttpSettings, port: u16) -> M<Vec<u8>>
    ensures { IfOk result (λ v. v.items ≡ url_text settings.now.host port (asked_path settings.now)) }
{
    let mut out = Vec::with_capacity(alloc, url_room(settings))?;
    add(&mut out, b"http://")?;
    add(&mut out, settings.host.bytes())?;
    add(&mut out, b":")?;
    add_decimal(&mut out, usize::from(port))?;
    add_asked_path(alloc, &mut out, settings)?;
    Ok(out)
}

/// The body.
fn body_of(alloc: Global, settings: &HttpSettings) -> M<Vec<u8>>
    ensures { IfOk result (λ v. v.items ≡ body_of settings.now) }
{
    if is_form(settings) {
        return form_of(alloc, settings);
    }
    let mut out = Vec::new(alloc);
    add(&mut out, settings.body.bytes())?;
    Ok(out)
}

/// Adds the request line.
fn add_start(out: &mut Vec<u8>, method: Method, url: &Url) -> M<()>
    ensures { OnOk result (out.new.items ≡ out.old.items ++ start_line method url.now) }
{
    add(out, method_text(method))?;
    add(out, b" ")?;
    add_target(out, url)?;
    add(out, b" HTTP/1.1\r\n")
}

/// Adds the path and the query of a URL.
fn add_target(out: &mut Vec<u8>, url: &Url) -> M<()>
    ensures { OnOk result (out.new.items ≡ out.old.items ++ target_text url.now) }
{
    add(out, url.path().as_bytes())?;
    add_query(out, url)
}

/// Adds the query of a URL, where it has one.
fn add_query(out: &mut Vec<u8>, url: &Url) -> M<()>
    ensures { OnOk result (out.new.items ≡ out.old.items ++ query_text url.now.query) }
{
    match url.query() {
        Some(query) => {
            add(out, b"?")?;
            add(out, query.as_bytes())
        }
        None => Ok(()),
    }
}

/// Adds the line of the host.
fn add_host(out: &mut Vec<u8>, port: u16, url: &Url) -> M<()>
    ensures { OnOk result (out.new.items ≡ out.old.items ++ host_line port url.now) }
{
    add(out, b"Host: ")?;
    add(out, url.host_str().unwrap_or("").as_bytes())?;
    if port != 80 {
        add(out, b":")?;
        add_decimal(out, usize::from(port))?;
    }
    add(out, b"\r\n")
}

/// Adds a header field.
fn add_header(out: &mut Vec<u8>, field: &NamedText) -> M<()>
    ensures { OnOk result (out.new.items ≡ out.old.items ++ header_line field.now) }
{
    add(out, field.name.bytes())?;
    add(out, b": ")?;
    add(out, field.value.bytes())?;
    add(out, b"\r\n")
}

/// Adds the header fields that are not left out.
fn add_headers(out: &mut Vec<u8>, fields: &[NamedText]) -> M<()>
    ensures { OnOk result (out.new.items ≡ out.old.items ++ header_lines fields.now) }
{
    for field in fields {
        if !is_left_out(field) {
            add_header(out, field)?;
        }
    }
    Ok(())
}

/// Adds the type of a body that is the parameters.
fn add_type(out: &mut Vec<u8>, settings: &HttpSettings) -> M<()>
    ensures { OnOk result (out.new.items ≡ out.old.items ++ type_line settings.now) }
{
    if is_form(settings) && !has_type(settings) {
        return add(out, b"Content-Type: application/x-www-form-urlencoded\r\n");
    }
    Ok(())
}

/// Adds the length of the body.
fn add_length(out: &mut Vec<u8>, method: Method, length: usize) -> M<()>
    ensures { OnOk result (out.new.items ≡ out.old.items ++ length_line method length) }
{
    if !sends_form(method) && length == 0 {
        return Ok(());
    }
    add(out, b"Content-Length: ")?;
    add_decimal(out, length)?;
    add(out, b"\r\n")
}

/// Adds the end of the head, and the body.
fn add_end(out: &mut Vec<u8>, settings: &HttpSettings, body: &[u8]) -> M<()>
    requires { body.now ≡ body_of settings.now }
    ensures { OnOk result (out.new.items ≡ out.old.items ++ head_end settings.now ++ body.now) }
{
    add_type(out, settings)?;
    add_length(out, settings.method, body.len())?;
    add(out, b"\r\n")?;
    add(out, body)
}

/// How many bytes a request has, at most.
fn request_room(settings: &HttpSettings, url: &Url, body: &[u8]) -> usize {
    url.as_str()
        .len()
        .saturating_add(room_of(settings.headers.as_slice()))
        .saturating_add(body.len())
        .saturating_add(HEAD_ROOM)
}

/// The bytes of the request.
fn request_text(alloc: Global, settings: &HttpSettings, port: u16, url: &Url) -> M<Vec<u8>>
    ensures { IfOk result (λ v. v.items ≡ request_text settings.now port url.now) }
{
    let body = body_of(alloc, settings)?;
    let mut out = Vec::with_capacity(alloc, request_room(settings, url, &body))?;
    add_start(&mut out, settings.method, url)?;
    add_host(&mut out, port, url)?;
    add(&mut out, b"Connection: close\r\n")?;
    add_headers(&mut out, settings.headers.as_slice())?;
    add_end(&mut out, settings, &body)?;
    Ok(out)
}

/// The URL of a text, where it has one.
fn read_url(alloc: Global, text: &[u8]) -> M<Option<Url>>
    ensures { IfOk result (λ o. MatchOption o (HasNoUrl text.now) (HasUrl text.now)) }
{
    let Ok(text) = str::from_utf8(text) else {
        return Ok(None);
    };
    match Url::parse(alloc, text) {
        Ok(url) => Ok(Some(url)),
        Err(ParseError::OutOfMemory | ParseError::Overflow) => Err(NoMemory),
        Err(_) => Ok(None),
    }
}

/// The host as the URL has it.
fn host_of(alloc: Global, url: &Url) -> M<Text>
    ensures { IfOk result (λ t. t ≡ host_text (host_or_empty url.now)) }
{
    Text::new(alloc, url.host_str().unwrap_or("").as_bytes())
}

/// The target at a port, where its URL can be read and the request is not too long.
fn target_at(alloc: Global, settings: &HttpSettings, port: u16) -> M<Option<Target>>
    ensures { IfOk result (λ o. MatchOption o (HasNoTargetAt settings.now port) (IsTargetAt settings.now port)) }
{
    let text = url_text(alloc, settings, port)?;
    let Some(url) = read_url(alloc, &text)? else {
        return Ok(None);
    };
    let bytes = request_text(alloc, settings, port, &url)?;
    if bytes.len() > REQUEST_LIMIT {
        return Ok(None);
    }
    Ok(Some(Target {
        host: host_of(alloc, &url)?,
        port,
        bytes: Text::of(bytes),
    }))
}

/// The bytes of a request, and where they go (RFC 9112, sections 3 and 6).
///
/// The URL `http://HOST:PORT` and the path are read by the URL Standard, which encodes what a URL can't hold and leaves out a
/// fragment. The request has the lines `METHOD PATH?QUERY HTTP/1.1`, `Host`, with the port where it is not 80, `Connection: close`,
/// the header fields as they come but those named Host, Connection, Content-Length and Transfer-Encoding, a `Content-Type` of
/// `application/x-www-form-urlencoded` where the body is parameters and no such field is there, and `Content-Length` with `POST`
/// and `PUT` and wherever there is a body. An empty line and the body follow.
///
/// `BadTarget` is judged over all header fields, those that are left out too: a name is a token (RFC 9110, section 5.6.2), and a
/// value has no CR, LF or NUL. By the law `one_target` settings have one target at most, and none where they are bad.
pub fn request_bytes(alloc: Global, settings: &HttpSettings) -> Result<Target, TargetError>
    ensures ok { IfOk result (IsTarget settings.now) }

    // Only where there is no host, port or URL, where a header field can't be sent, or where the request is too long.
    ensures bad { IsErrOf result TargetError.BadTarget → IsBadTarget settings.now }
{
    let Some(port) = port_of(settings.port.bytes()) else {
        return Err(TargetError::BadTarget);
    };
    if settings.host.bytes().is_empty() {
        return Err(TargetError::BadTarget);
    }
    if !are_valid_fields(settings.headers.as_slice()) {
        return Err(TargetError::BadTarget);
    }
    match target_at(alloc, settings, port) {
        Ok(Some(target)) => Ok(target),
        Ok(None) => Err(TargetError::BadTarget),
        Err(NoMemory) => Err(TargetError::NoMemory),
    }
}
