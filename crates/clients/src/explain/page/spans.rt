//! The script that shows where each part of the tree stands in the pattern, from the end of the data on.
//!
//! The engine keeps no offsets of a tree's parts. So the script reads the pattern once more, and only for where they stand. It
//! shows nothing unless it comes to the tree of the data, part by part.

pub(super) static SPANS: &str = r#"</script>
<script>'use strict';
(() => {
  const data = JSON.parse(document.getElementById('data').textContent);
  const text = [...data.pattern];
  let verbose = data.flags.x;
  let at = 0;
  let groups = 0;

  // Passes white space and comments, where they mean nothing.
  function skip() {
    while (verbose && at < text.length) {
      if (text[at] === '#') {
        while (at < text.length && text[at] !== '\n') at += 1;
      } else if (/\p{White_Space}/u.test(text[at])) {
        at += 1;
      } else {
        return;
      }
    }
  }

  // Passes all up to a closing brace, and returns it without what means nothing.
  function braces() {
    let inside = '';
    at += 1;
    for (skip(); text[at] !== '}'; skip()) {
      inside += text[at];
      at += 1;
    }
    at += 1;
    return inside;
  }

  // Passes the rest of an escape behind its backslash.
  function escape() {
    const digits = {x: 2, u: 4, U: 8}[text[at]];
    const boundary = text[at] === 'b' && text[at + 1] === '{';
    at += 1;
    if (boundary) {
      const brace = at;
      at += 1;
      skip();
      const named = /[A-Za-z-]/.test(text[at]);
      at = brace;
      if (named) braces();
    } else if (digits) {
      skip();
      if (text[at] === '{') {
        braces();
        return;
      }
      for (let left = digits; left > 0; left -= 1) {
        at += 1;
        if (left > 1) skip();
      }
    }
  }

  // Passes what may be an end of a range.
  function classEnd() {
    at += 1;
    if (text[at - 1] === '\\') escape();
  }

  // Passes the rest of a class behind its opening bracket.
  function bracket() {
    skip();
    if (text[at] === '^') {
      at += 1;
      skip();
    }
    const leading = text[at];
    while (text[at] === '-' && leading === '-') {
      at += 1;
      skip();
    }
    if (leading === ']') at += 1;
    for (skip(); text[at] !== ']'; skip()) {
      if (text[at] === '[') {
        while (text[at] !== ':' || text[at + 1] !== ']' || text[at - 1] === '[') at += 1;
        at += 2;
      } else {
        member();
      }
    }
    at += 1;
  }

  // Passes a character, an escape or a range.
  function member() {
    classEnd();
    skip();
    if (text[at] !== '-') return;
    const dash = at;
    at += 1;
    skip();
    if (text[at] === ']' || text[at] === '-') {
      at = dash;
    } else {
      classEnd();
    }
  }

  // Reads an operator behind its first character, and returns what it makes of the part before it.
  function repeated(part, operator) {
    let [min, max] = {'?': [0, 1], '*': [0, null], '+': [1, null]}[operator] || [];
    if (operator === '{') {
      at -= 1;
      const [least, most] = braces().split(',');
      min = Number(least);
      max = most === undefined ? min : most.trim() === '' ? null : Number(most);
    }
    const end = at;
    if (operator === '{') skip();
    if (text[at] === '?') at += 1; else at = end;
    const {start} = part;
    if (max === 0) return {kind: 'empty', parts: [], start, end: at};
    if (min === 1 && max === 1) return {...part, end: at};
    return {kind: 'repetition', min, max, parts: [part], start, end: at};
  }

  // Reads what opens a group or sets flags. Returns whether it opens a group, and its number, if it has one.
  function opened() {
    skip();
    const named = ['?<', '?P<'].some((words) => text.slice(at, at + words.length).join('') === words);
    if (named) {
      while (text[at] !== '>') at += 1;
      at += 1;
    } else if (text[at] === '?') {
      let on = true;
      for (at += 1; text[at] !== ':' && text[at] !== ')'; at += 1) {
        if (text[at] === '-') on = false;
        if (text[at] === 'x') verbose = on;
      }
      at += 1;
      return {opens: text[at - 1] === ':', number: null};
    }
    groups += 1;
    return {opens: true, number: groups};
  }

  // Reads the rest of a group, or of flags, behind its bracket. Returns the part that it is, or null for flags alone.
  function group(start) {
    const before = verbose;
    const {opens, number} = opened();
    if (!opens) return null;
    const part = choice();
    at += 1;
    verbose = before;
    if (number === null) return {...part, start, end: at};
    return {kind: 'group', number, parts: [part], start, end: at};
  }

  const several = (kind, parts) => ({kind, parts, start: parts[0].start, end: parts[parts.length - 1].end});
  function sequence(parts, start) {
    if (parts.length === 0) return {kind: 'empty', parts, start, end: start};
    return parts.length === 1 ? parts[0] : several('sequence', parts);
  }

  // Reads a choice, up to its closing bracket or to the end.
  function choice() {
    const branches = [];
    let begin = at;
    let parts = [];
    for (skip(); at < text.length && text[at] !== ')'; skip()) {
      const start = at;
      const c = text[at];
      at += 1;
      if (c === '|') {
        branches.push(sequence(parts, begin));
        begin = at;
        parts = [];
      } else if (c === '(') {
        const part = group(start);
        if (part) parts.push(part);
      } else if ('?*+{'.includes(c)) {
        parts.push(repeated(parts.pop(), c));
      } else {
        if (c === '[') bracket();
        if (c === '\\') escape();
        parts.push({kind: 'leaf', parts: [], start, end: at});
      }
    }
    branches.push(sequence(parts, begin));
    return branches.length === 1 ? branches[0] : several('alternation', branches);
  }

  // Returns whether a part that was read here is a part of the tree.
  function agrees(part, tree) {
    const below = tree.parts || (tree.of ? [tree.of] : []);
    const leaf = ['char', 'class', 'look'].includes(tree.kind);
    const alike = part.kind === 'leaf' ? leaf : part.kind === tree.kind;
    return alike && part.number === tree.number && part.min === tree.min && part.max === tree.max
      && part.parts.length === below.length && below.every((it, index) => agrees(part.parts[index], it));
  }
  const root = choice();
  if (at !== text.length || !agrees(root, data.tree)) return;

  // Shows the part of the pattern beside each item of the tree, and each part of the pattern in the colour of its item.
  const isPlain = (c) => /^[\p{L}\p{N}\p{P}\p{S}\p{M} ]$/u.test(c);
  const named = {'\n': '\\n', '\r': '\\r', '\t': '\\t'};
  const shown = (c) => named[c] || '\\u{' + c.codePointAt(0).toString(16).toUpperCase() + '}';
  function show(box, from, to) {
    for (const c of text.slice(from, to)) {
      const hidden = isPlain(c) ? null : document.createElement('i');
      if (hidden) hidden.textContent = shown(c);
      box.append(hidden || c);
    }
  }
  const items = [...document.querySelectorAll('.tree li')];
  const pairs = new Map();
  let next = 0;
  function drawn(part) {
    const item = items[next];
    next += 1;
    const label = item.firstElementChild;
    const box = document.createElement('span');
    box.className = item.className;
    box.title = label.textContent;
    let from = part.start;
    for (const it of part.parts) {
      show(box, from, it.start);
      box.append(drawn(it));
      from = it.end;
    }
    show(box, from, part.end);
    const code = document.createElement('code');
    code.className = 'text part';
    show(code, part.start, part.end);
    label.append(' ', code);
    label.tabIndex = 0;
    pairs.set(label, box);
    pairs.set(box, label);
    item.dataset.start = part.start;
    item.dataset.end = part.end;
    return box;
  }
  const pattern = document.getElementById('pattern');
  const box = drawn(root);
  pattern.replaceChildren();
  show(pattern, 0, root.start);
  pattern.append(box);
  show(pattern, root.end, text.length);

  // Marks a part and its item together: under the pointer, with the focus, or after a click on the part.
  function mark(event) {
    for (const it of document.querySelectorAll('.marked')) it.classList.remove('marked');
    for (let it = event.target; it instanceof Element; it = it.parentElement) {
      if (!pairs.has(it)) continue;
      it.classList.add('marked');
      pairs.get(it).classList.add('marked');
      if (event.type === 'click' && pattern.contains(it)) pairs.get(it).focus();
      return;
    }
  }
  for (const type of ['mouseover', 'focusin', 'click']) document.addEventListener(type, mark);
})();
"#;
