//! What stands in the text of a row as it is written today, found by the signs between its members.
//! It may be anything: what is made of it counts only where its text is the one that was cut.

/// The parts of an activity's text.
#[derive(Clone, Copy)]
pub(crate) struct CutActivity<'a> {
    pub(crate) after: Option<CutAudience<'a>>,
    pub(crate) at: &'a str,
    pub(crate) before: Option<CutAudience<'a>>,
    pub(crate) by: &'a str,
    pub(crate) name: &'a str,
    pub(crate) owner: Option<&'a str>,
}

/// The parts of an audience with one inner group.
#[derive(Clone, Copy)]
pub(crate) struct CutAudience<'a> {
    pub(crate) inner: &'a str,
    pub(crate) outer: &'a str,
    pub(crate) owner: Option<&'a str>,
}

/// The parts of a live annotation's text, with one inner group.
#[derive(Clone, Copy)]
pub(crate) struct CutNote<'a> {
    pub(crate) created: &'a str,
    pub(crate) creator: &'a str,
    pub(crate) group: &'a str,
    pub(crate) manifest: &'a str,
    pub(crate) modified: Option<&'a str>,
    pub(crate) name: &'a str,
    pub(crate) owner: &'a str,
    pub(crate) tree: &'a str,
    pub(crate) version: &'a str,
}

pub(crate) fn cut_activity(text: &str) -> Option<CutActivity<'_>> {
    let text = text.strip_prefix("{")?;
    let (after, text) = cut_audience_if(text, "\"after\":{\"inner\":[\"")?;
    let text = text.strip_prefix("\"at\":")?;
    let (at, text) = text.split_once(',')?;
    let (before, text) = cut_audience_if(text, "\"before\":{\"inner\":[\"")?;
    let text = text.strip_prefix("\"by\":\"")?;
    let (by, text) = text.split_once('"')?;
    let text = text.strip_prefix(",\"name\":\"")?;
    let (name, text) = text.split_once('"')?;
    let owner = cut_owner(text)?;
    Some(CutActivity {
        after,
        at,
        before,
        by,
        name,
        owner,
    })
}

/// The audience behind these signs, where the text begins so, and the text behind it.
fn cut_audience_if<'a>(text: &'a str, front: &str) -> Option<(Option<CutAudience<'a>>, &'a str)> {
    match text.strip_prefix(front) {
        Some(text) => {
            let (audience, text) = cut_audience(text)?;
            Some((Some(audience), text))
        }
        None => Some((None, text)),
    }
}

fn cut_audience(text: &str) -> Option<(CutAudience<'_>, &str)> {
    let (inner, text) = text.split_once('"')?;
    let text = text.strip_prefix("],\"outer\":\"")?;
    let (outer, text) = text.split_once('"')?;
    let (owner, text) = text.split_once('}')?;
    let text = text.strip_prefix(",")?;
    let owner = cut_member(owner)?;
    Some((
        CutAudience {
            inner,
            outer,
            owner,
        },
        text,
    ))
}

/// The owner that may stand at the end of an object.
fn cut_owner(text: &str) -> Option<Option<&str>> {
    let member = text.strip_suffix("}")?;
    cut_member(member)
}

/// The owner that a member is, where there is one.
fn cut_member(member: &str) -> Option<Option<&str>> {
    if member.is_empty() {
        return Some(None);
    }
    let owner = member.strip_prefix(",\"owner\":\"")?.strip_suffix("\"")?;
    Some(Some(owner))
}

pub(crate) fn cut_note(text: &str) -> Option<CutNote<'_>> {
    let text = text.strip_prefix("{\"created\":")?;
    let (created, text) = text.split_once(',')?;
    let text = text.strip_prefix("\"creator\":\"")?;
    let (creator, text) = text.split_once('"')?;
    let text = text.strip_prefix(",\"groups\":[\"")?;
    let (group, text) = text.split_once('"')?;
    let text = text.strip_prefix("],\"live\":true,\"manifest\":\"")?;
    let (manifest, text) = text.split_once('"')?;
    let (modified, text) = cut_modified(text)?;
    let (name, text) = text.split_once('"')?;
    let text = text.strip_prefix(",\"owner\":\"")?;
    let (owner, text) = text.split_once('"')?;
    let text = text.strip_prefix(",\"tree\":")?;
    let (tree, version) = text.strip_suffix("}")?.rsplit_once(",\"version\":")?;
    Some(CutNote {
        created,
        creator,
        group,
        manifest,
        modified,
        name,
        owner,
        tree,
        version,
    })
}

/// When it was changed, if it was, and the text from the name on.
fn cut_modified(text: &str) -> Option<(Option<&str>, &str)> {
    let (modified, text) = text.split_once(",\"name\":\"")?;
    if modified.is_empty() {
        return Some((None, text));
    }
    let modified = modified.strip_prefix(",\"modified\":")?;
    Some((Some(modified), text))
}
